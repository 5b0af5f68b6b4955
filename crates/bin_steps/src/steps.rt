// A step from whichever source a reader reads: a bin list, or a payload by the arithmetic engine.
ghost use Rattle.std.specs.Prelude.{◌≡◌, ◌≤◌, ◌<◌};
ghost use Rattle.tables.specs.Decisions.{decisions};
ghost use Rattle.bins.specs.Sources.{Readable, step_of, step_of_bits, bin_from, context_from, bypass_from, bits_from, align_from};

use crate::seldom;
use bins::state::{Interval, Refusal, Step, Taken};
use bins::tags::BYPASS;
use list_source::list;
use payload_bypass::bypass;
use payload_source::payload;

// A bin with the lent context, whose number is given.
pub fn decode_bin(
    list: bool,
    table: &[u32; 512],
    c: &mut u8,
    number: u32,
    bytes: &[u8],
    x: Interval,
) -> Step
    requires { Readable list bytes.now x × (c.old < 128) × (number < 32768) × (table.now ≡ decisions) }
    ensures { (result ≡ step_of x (bin_from list bytes.now number c.old x)) × (c.new ≡ context_from list bytes.now c.old x) }
{
    if list {
        return list::bin(bytes, number, x);
    }
    Ok(payload::decide(table, c, bytes, x))
}

pub fn decode_bypass(list: bool, bytes: &[u8], x: Interval) -> Step
    requires { Readable list bytes.now x }
    ensures { result ≡ step_of x (bypass_from list bytes.now x) }
{
    if list {
        return list::bin(bytes, BYPASS, x);
    }
    Ok(bypass::bypass_one(bytes, x))
}

// n bypass bins as a number. Up to 16 of a payload are read here, the rest by a call, which is lent a slice of its own and the interval by its parts:
// the caller's stay in registers, and the step is short enough to be compiled in place.
pub fn decode_bypass_bits(list: bool, bytes: &[u8], x: Interval, n: u32) -> Step
    requires { Readable list bytes.now x × (n ≤ 32) }
    ensures { result ≡ step_of_bits (bits_from list bytes.now n x) }
{
    if !list {
        if n <= 16 {
            return Ok(bypass::bypass_few(bytes, x, n));
        }
    }
    let position = x.position;
    seldom::decode_bypass_bits_by_parts(list, &bytes[0..], x.range, x.offset, position, n)
}

// The range becomes 256 before escape bytes; an offset that lies above it is 7.
pub fn align_bypass(list: bool, bytes: &[u8], x: Interval) -> Step
    requires { Readable list bytes.now x }
    ensures { result ≡ step_of x (align_from list bytes.now x) }
{
    if list {
        return list::align(bytes, x);
    }
    let at = x.position;
    let offset = x.offset;
    let range = 256;
    if range <= offset {
        return Err(Refusal { number: 7, at: x });
    }
    Ok(Taken {
        value: 0,
        next: Interval {
            range,
            offset,
            position: at,
        },
    })
}
