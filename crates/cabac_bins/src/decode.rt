// A decision and a terminate bin by the arithmetic engine of H.265 (CABAC), over payload and state.
ghost use Rattle.std.specs.Prelude.{◌≡◌};
ghost use Rattle.cabac.specs.Entries.{decision_says, bins_say};
ghost use Rattle.cabac.specs.Entries as entries;

use bins::state::Engine;
use cabac::answers::{Bins, DecidedBin, Decision, ReadBins};
use cabac_checks::checks::check_state;
use cabac_state::engine::{open, settle};
use decision_rows::decision_entry;
use payload_source::payload;

// One decision on a packed context.
pub fn decode_bin(bytes: &[u8], e: Engine, ctx: u8) -> Decision
    ensures { decision_says result ≡ entries.decision bytes.now e ctx }
{
    check_state(bytes, e)?;
    if 127 < ctx {
        return Err(3);
    }
    if e.ended {
        return Err(6);
    }
    let entry = decision_entry(ctx, e.range);
    let mut c = ctx;
    let t = payload::decide_by(entry, &mut c, bytes, open(e));
    let next = t.next;
    let state = settle(bytes, e, next);
    Ok(DecidedBin {
        bin: t.value == 1,
        context: c,
        state,
    })
}

// Terminate: 1 ends the engine, with the range less 2 and nothing drawn.
pub fn decode_terminate(bytes: &[u8], e: Engine) -> Bins
    ensures { bins_say result ≡ entries.terminate bytes.now e }
{
    check_state(bytes, e)?;
    if e.ended {
        return Err(6);
    }
    let range = e.range - 2;
    let offset = e.offset;
    let at = e.position;
    if range <= offset {
        return Ok(ReadBins {
            value: 1,
            state: Engine {
                range,
                offset,
                position: at,
                ended: true,
                past: e.past,
            },
        });
    }
    let next = payload::renorm(bytes, open(e), range, offset);
    let state = settle(bytes, e, next);
    Ok(ReadBins { value: 0, state })
}
