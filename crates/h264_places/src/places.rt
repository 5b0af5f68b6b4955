// The significant places of a block, as marks.
ghost use Rattle.std.specs.Prelude.{◌≡◌, false, ◌<◌, replicate};
ghost use Rattle.tables.specs.Decisions.{decisions};
ghost use Rattle.trees.specs.Agree.{Reads};
ghost use Rattle.h264_block.specs.BlockAgree.{SaysPlace, SaysPlaces};

use bins::state::{Interval, Step, Taken};
use tree_shapes::context_bin;

// The flags of place k: 0 not significant, 1 significant, 2 the last.
fn place_flags(
    list: bool,
    table: &[u32; 512],
    contexts: &mut [u8; 40],
    k: usize,
    bytes: &[u8],
    x: Interval,
) -> Step
    requires { Reads list bytes.now x contexts.old × (k < 15) × (table.now ≡ decisions) }
    ensures { SaysPlace result list bytes.now k x contexts.old contexts.new }
{
    let Taken { value: b, next: y } = context_bin(list, table, contexts, k, bytes, x)?;
    if b == 0 {
        return Ok(Taken { value: 0, next: y });
    }
    let Taken { value: e, next } = context_bin(list, table, contexts, 15 + k, bytes, y)?;
    Ok(Taken { value: 1 + e, next })
}

// Flags for places 0 to 14; place 15 is inferred if none was last.
pub fn places(
    list: bool,
    table: &[u32; 512],
    contexts: &mut [u8; 40],
    marks: &mut [bool; 16],
    bytes: &[u8],
    x: Interval,
) -> Step
    requires { Reads list bytes.now x contexts.old × (marks.old ≡ replicate 16 false) × (table.now ≡ decisions) }
    ensures { SaysPlaces result list bytes.now x contexts.old contexts.new marks.new }
{
    let mut y = x;
    for k in 0..15 {
        let Taken { value: v, next } = place_flags(list, table, contexts, k, bytes, y)?;
        y = next;
        if v == 2 {
            marks[k] = true;
            return Ok(Taken { value: 0, next: y });
        }
        marks[k] = v == 1;
    }
    marks[15] = true;
    Ok(Taken { value: 0, next: y })
}
