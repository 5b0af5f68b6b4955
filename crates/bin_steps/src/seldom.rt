// Steps that are taken seldom, by a call of their own: those that readers are made of are then short enough to be compiled in place.
ghost use Rattle.std.specs.Prelude.{◌≡◌, ◌≤◌};
ghost use Rattle.bins.specs.Sources.{Readable, step_of_bits, bits_from};

use bins::places::SourcePlace;
use bins::state::{Interval, Step, Taken};
use list_source::list;
use payload_bypass::bypass;

// Any number of bypass bins, from either source.
pub fn decode_bypass_bits(list: bool, bytes: &[u8], x: Interval, n: u32) -> Step
    requires { Readable list bytes.now x × (n ≤ 32) }
    ensures { result ≡ step_of_bits (bits_from list bytes.now n x) }
{
    let position = x.position;
    decode_bypass_bits_by_parts(list, bytes, x.range, x.offset, position, n)
}

// The same with the interval by its parts, which go in registers: the call costs its caller less.
pub fn decode_bypass_bits_by_parts(
    list: bool,
    bytes: &[u8],
    range: u32,
    offset: u32,
    position: SourcePlace,
    n: u32,
) -> Step
    requires { Readable list bytes.now (record { range = range; offset = offset; position = position }) × (n ≤ 32) }
    ensures { result ≡ step_of_bits (bits_from list bytes.now n (record { range = range; offset = offset; position = position })) }
{
    let x = Interval {
        range,
        offset,
        position,
    };
    if list {
        return list::bypass_bits(bytes, x, n);
    }
    Ok(bypass::bypass_bits(bytes, x, n))
}

// The same where there are often none, and then nothing is to be worked out.
pub fn decode_bypass_bits_if_any(list: bool, bytes: &[u8], x: Interval, n: u32) -> Step
    requires { Readable list bytes.now x × (n ≤ 32) }
    ensures { result ≡ step_of_bits (bits_from list bytes.now n x) }
{
    if n == 0 {
        return Ok(Taken { value: 0, next: x });
    }
    decode_bypass_bits(list, bytes, x, n)
}
