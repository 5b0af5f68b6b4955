// The state opened and settled.
ghost use Rattle.std.specs.Prelude.{◌≡◌, ◌-◌, ◌≤◌, min, length};
ghost use Rattle.bins.specs.Bits.{ends, added};
ghost use Rattle.bins.specs.Engine.{place};
ghost use Rattle.bins.specs.Interval.{opened, settled};
ghost use Rattle.cabac.specs.Entries.{drawn_at, behind_fetch, state_says, bins_say};
ghost use Rattle.cabac.specs.Entries as entries;

use bins::fetch::Drawn;
use bins::places::{BitPlace, end_of, in_payload, of_payload};
use bins::state::{Engine, Interval, Taken};
use bits::fetch::fetch;
use cabac::answers::{Bins, ReadBins, State};

// A block reader works on range, offset and place alone.
pub fn open(e: Engine) -> Interval
    ensures { result ≡ opened e }
{
    let at = e.position;
    let position = of_payload(at);
    Interval {
        range: e.range,
        offset: e.offset,
        position,
    }
}

// A total past the end with so many bits more: it stops at 65,535.
fn added_to(total: u32, more: usize) -> u32
    ensures { result ≡ added total more }
{
    if 65535 < total {
        return 65535;
    }
    if 65535 < more {
        return 65535;
    }
    let sum = total + more as u32;
    if sum < 65535 { sum } else { 65535 }
}

// A place as the caller sees it: one past the end is cut to the end.
fn cut(bytes: &[u8], at: BitPlace) -> BitPlace
    requires { length bytes.now ≤ 16777216 }
    ensures { result.0 ≡ min at.0 (ends bytes.now) }
{
    let end = end_of(bytes);
    if end.0 < at.0 { end } else { at }
}

// How far past the end a place ran on.
fn ran_past(bytes: &[u8], at: BitPlace) -> usize
    requires { length bytes.now ≤ 16777216 }
    ensures { result ≡ at.0 - ends bytes.now }
{
    let end = end_of(bytes);
    if end.0 < at.0 { at.0 - end.0 } else { 0 }
}

// What the caller sees of it: the place cut to the end, and what is cut off added to the total.
pub fn settle(bytes: &[u8], e: Engine, x: Interval) -> Engine
    requires { length bytes.now ≤ 16777216 }
    ensures { result ≡ settled bytes.now e x }
{
    let position = x.position;
    let ran = in_payload(position);
    let past = added_to(e.past, ran_past(bytes, ran));
    let at = cut(bytes, ran);
    Engine {
        range: x.range,
        offset: x.offset,
        position: at,
        ended: e.ended,
        past,
    }
}

// The state behind a fetch at its place: what the fetch supplied past the end is added to the total.
pub fn behind(bytes: &[u8], e: Engine, range: u32, offset: u32, d: Drawn) -> Engine
    requires { length bytes.now ≤ 16777216 }
    ensures { result ≡ behind_fetch bytes.now e range offset d }
{
    let past = added_to(e.past, d.past as usize);
    let ran = d.next;
    let at = cut(bytes, ran);
    Engine {
        range,
        offset,
        position: at,
        ended: e.ended,
        past,
    }
}

pub fn bins_of(bytes: &[u8], e: Engine, t: Taken) -> Bins
    requires { length bytes.now ≤ 16777216 }
    ensures { bins_say result ≡ drawn_at bytes.now e t }
{
    let next = t.next;
    let state = settle(bytes, e, next);
    Ok(ReadBins {
        value: t.value,
        state,
    })
}

// Nine bits at the state's place are its offset; 510 and 511 are none.
pub fn started_at(bytes: &[u8], e: Engine) -> State
    requires { (place e ≤ ends bytes.now) × (length bytes.now ≤ 16777216) }
    ensures { state_says result ≡ entries.started_at bytes.now e }
{
    let at = e.position;
    let nine = fetch(bytes, at, 9);
    let offset = nine.bits;
    if 510 <= offset {
        return Err(5);
    }
    Ok(behind(bytes, e, 510, offset, nine))
}
