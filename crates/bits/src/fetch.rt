// Bits of the payload (H.265 7.2, read_bits), high bit first; past the end they are 1. Where four bytes are left, up to 16 are taken at once.
ghost use Rattle.std.specs.Prelude.{◌≡◌, ◌+◌, ◌/◌, ◌%◌, ◌≤◌, ◌<◌, length};
ghost use Rattle.bins.specs.Bits.{bits, ends, past_most};
ghost use Rattle.bins.specs.Interval.{supplied};

use bins::fetch::Drawn;
use bins::places::{BitPlace, byte_of};
use payload_bits::bits::{beyond, cut, one_by_one, word_at};

// Up to 16 bits at a place. No bits are a shift by 32, which a u32 does not have, so it is made in 64 bits.
pub fn draw(bytes: &[u8], at: BitPlace, c: u32) -> Drawn
    requires { (at.0 ≤ ends bytes.now + past_most) × (length bytes.now ≤ 16777216) × (c ≤ 16) }
    ensures { result ≡ supplied bytes.now at.0 c }
{
    let byte = byte_of(at);
    let i = byte.0;
    let p = at.0;
    let q = p + c as usize;
    if i + 4 <= bytes.len() {
        let word = word_at(bytes, i) << (p % 8);
        return Drawn {
            bits: ((word as u64) >> (32 - c)) as u32,
            next: BitPlace(q),
            past: 0,
        };
    }
    let next = cut(bytes, BitPlace(q));
    let past = beyond(bytes, at, c);
    Drawn {
        bits: one_by_one(&bytes[0..], at, c),
        next,
        past,
    }
}

// The c bits at a place (start 9.3.2.5, raw bits): 16 at once, the rest from where those left the place.
pub fn fetch(bytes: &[u8], at: BitPlace, c: u32) -> Drawn
    requires { (at.0 ≤ ends bytes.now + past_most) × (length bytes.now ≤ 16777216) × (c ≤ 32) }
    ensures { result ≡ supplied bytes.now at.0 c }
{
    if c <= 16 {
        return draw(bytes, at, c);
    }
    let high = draw(bytes, at, 16);
    let between = high.next;
    let low = draw(bytes, between, c - 16);
    let next = low.next;
    Drawn {
        bits: (high.bits << (c - 16)) + low.bits,
        next,
        past: high.past + low.past,
    }
}
