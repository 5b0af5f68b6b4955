// Reading into a kept block.
ghost use Rattle.std.specs.Prelude.{◌≡◌};
ghost use Rattle.hevc_summary.specs.Agree.{kept_of};
ghost use Rattle.bulmegart_summary.specs.Readers.{block_left, read_block, list_left, read_list};

use bins::tags::CONTEXTS;
use bulmegart::records::{BlockParams, EngineState};
use bulmegart_summary::readers::{KeptBlockAnswer, KeptListAnswer};
use hevc_summary::kept::{Form, Whole};

// A block from a payload.
#[unsafe(no_mangle)]
pub extern "C" fn bulmegart_read_kept(
    payload: &[u8],
    state: EngineState,
    contexts: &mut [u8; CONTEXTS],
    statistics: &mut [u8; 4],
    params: BlockParams,
    levels: &mut [i32],
    counts: &mut [u32; 64],
    sums: &mut [u64; 64],
    form: Form,
    whole: Whole,
) -> KeptBlockAnswer
    ensures { block_left result contexts.new statistics.new levels.new counts.new sums.new ≡ read_block form payload.now state contexts.old statistics.old params (kept_of levels.old counts.old sums.old whole) }
{
    bulmegart_summary::readers::bulmegart_read_kept(
        payload, state, contexts, statistics, params, levels, counts, sums, form, whole,
    )
}

// A block from a bin list, which it must end.
#[unsafe(no_mangle)]
pub extern "C" fn bulmegart_read_kept_bins(
    list: &[u8],
    statistics: &mut [u8; 4],
    params: BlockParams,
    levels: &mut [i32],
    counts: &mut [u32; 64],
    sums: &mut [u64; 64],
    form: Form,
    whole: Whole,
) -> KeptListAnswer
    ensures { list_left result statistics.new levels.new counts.new sums.new ≡ read_list form list.now statistics.old params (kept_of levels.old counts.old sums.old whole) }
{
    bulmegart_summary::readers::bulmegart_read_kept_bins(
        list, statistics, params, levels, counts, sums, form, whole,
    )
}
