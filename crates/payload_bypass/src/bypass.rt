// Bypass bins out of a payload (H.265 9.3.4.3.4).
ghost use Rattle.std.specs.Prelude.{◌≡◌, ◌+◌, ◌-◌, ◌*◌, ◌/◌, ◌%◌, ◌≤◌, ◌<◌};
ghost use Rattle.bins.specs.Interval.{Goes, bypassed_on};

use bins::places::{in_payload, of_payload};
use bins::state::{Interval, Taken};
use bits::fetch::draw;
use payload_source::payload::{keep, pick};

// One bypass bin (9.3.4.3.4): the offset doubled with the next bit, held against the range.
pub fn bypass_one(bytes: &[u8], x: Interval) -> Taken
    requires { Goes bytes.now x }
    ensures { result ≡ bypassed_on bytes.now x 1 }
{
    let range = x.range;
    let position = x.position;
    let at = in_payload(position);
    let drawn = draw(bytes, at, 1);
    let offset = x.offset * 2 + drawn.bits;
    let next = drawn.next;
    let behind = of_payload(next);
    let zero = offset < range;
    let kept = keep(zero, offset, range);
    Taken {
        value: pick(zero, 0, 1),
        next: Interval {
            range,
            offset: kept,
            position: behind,
        },
    }
}

// Up to 16 bypass bins by one division.
pub fn bypass_few(bytes: &[u8], x: Interval, n: u32) -> Taken
    requires { Goes bytes.now x × (n ≤ 16) }
    ensures { result ≡ bypassed_on bytes.now x n }
{
    let range = x.range;
    let position = x.position;
    let at = in_payload(position);
    let drawn = draw(bytes, at, n);
    let whole = (x.offset << n) + drawn.bits;
    let next = drawn.next;
    let behind = of_payload(next);
    Taken {
        value: whole / range,
        next: Interval {
            range,
            offset: whole % range,
            position: behind,
        },
    }
}

// Up to 32 bypass bins.
pub fn bypass_bits(bytes: &[u8], x: Interval, n: u32) -> Taken
    requires { Goes bytes.now x × (n ≤ 32) }
    ensures { result ≡ bypassed_on bytes.now x n }
{
    if n <= 16 {
        return bypass_few(bytes, x, n);
    }
    let high = bypass_few(bytes, x, n - 16);
    let between = high.next;
    let low = bypass_few(bytes, between, 16);
    let next = low.next;
    Taken {
        value: high.value * 65536 + low.value,
        next,
    }
}
