// The steps of the arithmetic engine (H.265 9.3.4.3), by value beside the payload. What a caller must ensure, an entry point has looked at once.
ghost use Rattle.std.specs.Prelude.{◌≡◌, cond, ltb, ◌+◌, ◌-◌, ◌*◌, ◌/◌, ◌%◌, ◌<◌, get_or};
ghost use Rattle.tables.specs.Decisions.{decisions};
ghost use Rattle.bins.specs.Interval.{Goes, Renorms, renormed_on, decided_on, decided_value};

use bins::places::{in_payload, of_payload};
use bins::state::{Interval, Taken};
use bits::fetch::draw;

// Renormalise (9.3.4.3.3), all its bits by one fetch: the shift is the number of leading zeros of the range above nine bits.
pub fn renorm(bytes: &[u8], x: Interval, range: u32, offset: u32) -> Interval
    requires { Renorms bytes.now x range offset }
    ensures { result ≡ renormed_on bytes.now x range offset }
{
    let shift = u32::leading_zeros(range) - 23;
    let position = x.position;
    let at = in_payload(position);
    let drawn = draw(bytes, at, shift);
    let next = drawn.next;
    let behind = of_payload(next);
    Interval {
        range: range << shift,
        offset: (offset << shift) + drawn.bits,
        position: behind,
    }
}

pub fn pick(first: bool, a: u32, b: u32) -> u32
    ensures { result ≡ cond first a b }
{
    if first { a } else { b }
}

// The offset as it is, or with the part below it taken off.
pub fn keep(whole: bool, offset: u32, part: u32) -> u32
    requires { whole ≡ ltb offset part }
    ensures { result ≡ cond whole offset (offset - part) }
{
    if whole { offset } else { offset - part }
}

// One decision on a lent context, by its entry of the decision table. No branch: both ways are worked out, and one is picked.
pub fn decide_by(entry: u32, c: &mut u8, bytes: &[u8], x: Interval) -> Taken
    requires { Goes bytes.now x × (c.old < 128) × (entry ≡ get_or decisions (c.old * 4 + x.range / 64 % 4) 0) }
    ensures { (result ≡ decided_value bytes.now x c.old) × (c.new ≡ (decided_on bytes.now x c.old).ctx) }
{
    let packed = *c;
    let range = x.range;
    let offset = x.offset;
    let lps = entry % 256;
    let less = range - lps;
    let mps = (packed / 64) as u32;
    let favoured = offset < less;
    let left = pick(favoured, less, lps);
    let kept = keep(favoured, offset, less);
    let bin = pick(favoured, mps, 1 - mps);
    let next = pick(favoured, entry / 256 % 256, entry / 65536);
    *c = next as u8;
    let interval = renorm(bytes, x, left, kept);
    Taken {
        value: bin,
        next: interval,
    }
}

// The same with the table lent: who makes many decisions lays it out once.
pub fn decide(table: &[u32; 512], c: &mut u8, bytes: &[u8], x: Interval) -> Taken
    requires { Goes bytes.now x × (c.old < 128) × (table.now ≡ decisions) }
    ensures { (result ≡ decided_value bytes.now x c.old) × (c.new ≡ (decided_on bytes.now x c.old).ctx) }
{
    let packed = *c;
    let range = x.range;
    let entry = table[packed as usize * 4 + (range / 64 % 4) as usize];
    decide_by(entry, c, bytes, x)
}
