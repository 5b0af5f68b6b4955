// The entry points: a scale from a payload, and from a bin list.
// Each takes anything: what is not accepted is answered by its number.
ghost use Rattle.std.specs.Prelude.{◌≡◌};
ghost use Rattle.cabac.specs.Numbers.{checked};
ghost use Rattle.hevc_cross.specs.Entries.{component_refusal, read_payload, read_bins};
ghost use Rattle.hevc_scale.specs.EntriesAgree.{payload_read, bins_read, payload_checks};

use bins::places::SourcePlace;
use bins::state::{Engine, Interval};
use bins::tags::CONTEXTS;
use cabac_checks::checks::{passed, payload_refusal, state_refusal};
use cabac_state::engine::{open, settle};
use hevc_checks::checks::above_refusal;
use hevc_scale_syntax::syntax;
use tables::decision_table;

// A scale, and the state behind it.
#[derive(Clone, Copy)]
pub struct FoundScale {
    pub scale: i32,
    pub next: Engine,
}

// A scale found, or the number of the refusal.
pub type Read = Result<FoundScale, u32>;

// A scale, or the number of the refusal.
pub type ReadList = Result<i32, u32>;

// 4: chroma component 0 or 1
#[tactic(auto, unfolding(hevc_cross::specs::Entries::component_refusal))]
pub fn component_refusal(component: u32) -> u32
    ensures { result ≡ component_refusal component }
{
    if 1 < component {
        return 4;
    }
    0
}

// 1, 2, 4, 3, 6
fn check_payload(bytes: &[u8], e: Engine, contexts: &[u8], component: u32) -> Result<(), u32>
    ensures { result ≡ checked (payload_checks bytes.now e contexts.now component) }
{
    passed(payload_refusal(bytes))?;
    passed(component_refusal(component))?;
    passed(state_refusal(bytes, e))?;
    passed(above_refusal(contexts, 127))?;
    if e.ended {
        return Err(6);
    }
    Ok(())
}

// The scale of a chroma component, from a payload. A refusal leaves the contexts as they were.
pub fn read_scale(bytes: &[u8], e: Engine, contexts: &mut [u8; CONTEXTS], component: u32) -> Read
    ensures { payload_read result contexts.new ≡ read_payload bytes.now e contexts.old component }
{
    check_payload(bytes, e, contexts, component)?;
    let table = decision_table();
    let mut cs = *contexts;
    let r = syntax::read_scale(false, &table, &mut cs, component as usize, bytes, open(e));
    match r {
        Ok(found) => {
            *contexts = cs;
            let state = settle(bytes, e, found.next);
            Ok(FoundScale {
                scale: found.scale,
                next: state,
            })
        }
        Err(refusal) => Err(refusal.number),
    }
}

// The same from a bin list, which it must end.
pub fn read_scale_bins(bytes: &[u8], component: u32) -> ReadList
    ensures { bins_read result ≡ read_bins bytes.now component }
{
    passed(component_refusal(component))?;
    let table = decision_table();
    let mut contexts = [0u8; CONTEXTS];
    let front = Interval {
        range: 256,
        offset: 0,
        position: SourcePlace(0),
    };
    let r = syntax::read_scale(
        true,
        &table,
        &mut contexts,
        component as usize,
        bytes,
        front,
    );
    match r {
        Ok(found) => {
            let at = found.next.position;
            if at.0 != bytes.len() {
                return Err(13);
            }
            Ok(found.scale)
        }
        Err(refusal) => Err(refusal.number),
    }
}
