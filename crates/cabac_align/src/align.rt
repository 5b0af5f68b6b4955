// The range, the position and the payload aligned.
ghost use Rattle.std.specs.Prelude.{◌≡◌};
ghost use Rattle.cabac.specs.Entries.{state_says};
ghost use Rattle.cabac.specs.Entries as entries;

use bins::places::{aligned, first_bit};
use bins::state::Engine;
use cabac::answers::State;
use cabac_checks::checks::check_state;

// Alignment of the range, as before escape data: 256, and nothing is drawn.
pub fn align_bypass(bytes: &[u8], e: Engine) -> State
    ensures { state_says result ≡ entries.align_bypass bytes.now e }
{
    check_state(bytes, e)?;
    if e.ended {
        return Err(6);
    }
    if 256 <= e.offset {
        return Err(7);
    }
    let at = e.position;
    let state = Engine {
        range: 256,
        offset: e.offset,
        position: at,
        ended: e.ended,
        past: e.past,
    };
    Ok(state)
}

// Byte alignment: the position rounded up to a whole byte.
pub fn byte_align(bytes: &[u8], e: Engine) -> State
    ensures { state_says result ≡ entries.byte_align bytes.now e }
{
    check_state(bytes, e)?;
    let at = e.position;
    let byte = aligned(at);
    let place = first_bit(byte);
    Ok(Engine {
        range: e.range,
        offset: e.offset,
        position: place,
        ended: e.ended,
        past: e.past,
    })
}

// The rest of the payload behind byte alignment, as that part of the caller's bytes; empty where byte alignment refuses.
pub fn rest(bytes: &[u8], e: Engine) -> &[u8]
    ensures { result.now ≡ entries.rest_of bytes.now e }
{
    let Ok(()) = check_state(bytes, e) else {
        let end = bytes.len();
        return &bytes[end..];
    };
    let at = e.position;
    let byte = aligned(at);
    let first = byte.0;
    &bytes[first..]
}
