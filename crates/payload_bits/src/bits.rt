// A bit, a word of four bytes, and what is beyond the end.
ghost use Rattle.std.specs.Prelude.{◌≡◌, ◌+◌, ◌*◌, ◌/◌, ◌%◌, ◌≤◌, ◌<◌, min, length, get_or};
ghost use Rattle.bins.specs.Bits.{bit_at, bits, ends, over, past_most};
ghost use Rattle.bins.specs.FetchLaws.{LowFirst};

use bins::places::{BitPlace, byte_of, end_of};

fn bit_at(bytes: &[u8], at: BitPlace) -> u32
    ensures { result ≡ bit_at bytes.now at.0 }
{
    let byte = byte_of(at);
    let i = byte.0;
    let p = at.0;
    if i < bytes.len() {
        ((bytes[i] as u32) >> (7 - p % 8)) % 2
    } else {
        1
    }
}

// The c bits one after the other, near the end and past it. It calls itself so that LLVM never compiles it in place: a decision has but the call.
pub fn one_by_one(bytes: &[u8], at: BitPlace, c: u32) -> u32
    requires { (at.0 ≤ ends bytes.now + past_most) × (length bytes.now ≤ 16777216) × (c ≤ 32) }
    ensures { result ≡ bits bytes.now at.0 c }
{
    if c == 0 {
        return 0;
    }
    let k = c - 1;
    let before = one_by_one(bytes, at, k);
    let p = at.0;
    before * 2 + bit_at(bytes, BitPlace(p + k as usize))
}

fn byte_at(bytes: &[u8], i: usize) -> u32
    requires { i < length bytes.now }
    ensures { (result ≡ get_or bytes.now i 255) × (result < 256) }
{
    bytes[i] as u32
}

// Four bytes, the first the lowest: LLVM makes one load of it. The first the highest, four loads stay, too much to compile a decision in place.
fn low_first(bytes: &[u8], i: usize) -> u32
    requires { i + 4 ≤ length bytes.now }
    ensures { LowFirst bytes.now i result }
{
    byte_at(bytes, i)
        + byte_at(bytes, i + 1) * 256
        + byte_at(bytes, i + 2) * 65536
        + byte_at(bytes, i + 3) * 16777216
}

// The same four bytes, the first the highest: LLVM makes one swap of it.
fn turned(w: u32) -> u32
    ensures { result ≡ w % 256 * 16777216 + w / 256 % 256 * 65536 + w / 65536 % 256 * 256 + w / 16777216 }
{
    w % 256 * 16777216 + w / 256 % 256 * 65536 + w / 65536 % 256 * 256 + w / 16777216
}

// The 32 bits at a byte.
pub fn word_at(bytes: &[u8], i: usize) -> u32
    requires { i + 4 ≤ length bytes.now }
    ensures { result ≡ bits bytes.now (8 * i) 32 }
{
    turned(low_first(bytes, i))
}

// A place, that runs on past the end, so that how far is known, and stops there at last.
pub fn cut(bytes: &[u8], at: BitPlace) -> BitPlace
    requires { length bytes.now ≤ 16777216 }
    ensures { result.0 ≡ min at.0 (ends bytes.now + past_most) }
{
    let most = end_of(bytes).0 + 65535;
    BitPlace(at.0.min(most))
}

// How many of the c bits lie past the end.
pub fn beyond(bytes: &[u8], at: BitPlace, c: u32) -> u32
    requires { (at.0 ≤ ends bytes.now + past_most) × (length bytes.now ≤ 16777216) × (c ≤ 32) }
    ensures { result ≡ over bytes.now at.0 c }
{
    let p = at.0 + c as usize;
    let end = end_of(bytes).0;
    if p <= end {
        return 0;
    }
    if end <= at.0 {
        return c;
    }
    (p - end) as u32
}
