// The two block readers.
ghost use Rattle.std.specs.Prelude.{◌≡◌};
ghost use Rattle.bulmegart_blocks.specs.Blocks.{block_left, read_block, list_left, read_list};

use bins::tags::CONTEXTS;
use bulmegart::records::{BlockParams, EngineState};
use bulmegart_blocks::blocks::{BlockAnswer, ListAnswer};

// One block from a payload.
#[unsafe(no_mangle)]
pub extern "C" fn bulmegart_residual_coding(
    payload: &[u8],
    state: EngineState,
    contexts: &mut [u8; CONTEXTS],
    statistics: &mut [u8; 4],
    params: BlockParams,
    levels: &mut [i32],
) -> BlockAnswer
    ensures { block_left result contexts.new statistics.new levels.new ≡ read_block payload.now state contexts.old statistics.old params levels.old }
{
    bulmegart_readers::blocks::bulmegart_residual_coding(
        payload, state, contexts, statistics, params, levels,
    )
}

// One block from a bin list, which it must end.
#[unsafe(no_mangle)]
pub extern "C" fn bulmegart_read_bins(
    list: &[u8],
    statistics: &mut [u8; 4],
    params: BlockParams,
    levels: &mut [i32],
) -> ListAnswer
    ensures { list_left result statistics.new levels.new ≡ read_list list.now statistics.old params levels.old }
{
    bulmegart_readers::blocks::bulmegart_read_bins(list, statistics, params, levels)
}
