// The same steps from a bin list. An entry is two bytes, the low one first.
ghost use Rattle.std.specs.Prelude.{◌≡◌, ◌+◌, ◌≤◌, ◌<◌, length};
ghost use Rattle.bins.specs.Interval.{place_of};
ghost use Rattle.bins.specs.Sources.{Tagged, behind, step_of, step_of_bits, entry_bin, entry_align, entries_on};

use bins::places::{ListPlace, in_list, of_list};
use bins::state::{Interval, Refusal, Step, Taken};
use bins::tags::{ALIGNMENT, BYPASS};

fn next_entry(x: Interval) -> Interval
    requires { place_of x < 9223372036854775808 }
    ensures { result ≡ behind x }
{
    let position = x.position;
    let at = in_list(position);
    let behind = of_list(ListPlace(at.0 + 2));
    Interval {
        range: x.range,
        offset: x.offset,
        position: behind,
    }
}

// An entry's two bytes as a number.
fn tag_at(bytes: &[u8], i: usize) -> u32
    requires { i + 1 < length bytes.now }
    ensures { Tagged bytes.now i result }
{
    let low = bytes[i] as u32;
    let high = bytes[i + 1] as u32;
    low + 256 * high
}

// A bin with the context of a number; bypass stands as one more number.
pub fn bin(bytes: &[u8], number: u32, x: Interval) -> Step
    requires { (place_of x ≤ length bytes.now) × (number < 32768) }
    ensures { result ≡ step_of x (entry_bin bytes.now number x) }
{
    let at = x.position;
    let place = in_list(at);
    let i = place.0;
    if i + 1 < bytes.len() {
        let entry = tag_at(bytes, i);
        if entry / 2 == number {
            let next = next_entry(x);
            return Ok(Taken {
                value: entry % 2,
                next,
            });
        }
    }
    Err(Refusal { number: 13, at: x })
}

pub fn align(bytes: &[u8], x: Interval) -> Step
    requires { place_of x ≤ length bytes.now }
    ensures { result ≡ step_of x (entry_align bytes.now x) }
{
    let at = x.position;
    let place = in_list(at);
    let i = place.0;
    if i + 1 < bytes.len() {
        let entry = tag_at(bytes, i);
        if entry == ALIGNMENT {
            let next = next_entry(x);
            return Ok(Taken { value: 0, next });
        }
    }
    Err(Refusal { number: 13, at: x })
}

// n bypass bins as a number.
pub fn bypass_bits(bytes: &[u8], x: Interval, n: u32) -> Step
    requires { (place_of x ≤ length bytes.now) × (n ≤ 32) }
    ensures { result ≡ step_of_bits (entries_on bytes.now n 0 x) }
{
    let mut y = x;
    let mut v: u32 = 0;
    for _i in 0..n {
        let Taken { value: b, next } = bin(bytes, BYPASS, y)?;
        v = v * 2 + b;
        y = next;
    }
    Ok(Taken { value: v, next: y })
}
