// The two block readers.
ghost use Rattle.std.specs.Prelude.{◌≡◌};
ghost use Rattle.bulmegart_blocks.specs.Blocks.{block_left, list_left, read_block, read_list};

use bins::tags::CONTEXTS;
use bulmegart::records::{BlockParams, EngineState, block_handed, params_flags};
use bulmegart_blocks::blocks::{BlockAnswer, ListAnswer, block_answer};
use hevc_reader::entries::{read_bins, residual_coding};

// One block from a payload.
#[unsafe(no_mangle)]
pub extern "C" fn bulmegart_residual_coding(
    payload: &[u8],
    state: EngineState,
    contexts: &mut [u8; CONTEXTS],
    statistics: &mut [u8; 4],
    params: BlockParams,
    levels: &mut [i32],
) -> BlockAnswer
    ensures { block_left result contexts.new statistics.new levels.new ≡ read_block payload.now state contexts.old statistics.old params levels.old }
{
    let n = block_handed(payload, state, params);
    if n != 0 {
        return block_answer(Err(n), state);
    }
    let r = residual_coding(
        payload,
        state.into(),
        contexts,
        statistics,
        params.into(),
        levels,
    );
    block_answer(r, state)
}

// One block from a bin list, which it must end.
#[unsafe(no_mangle)]
pub extern "C" fn bulmegart_read_bins(
    list: &[u8],
    statistics: &mut [u8; 4],
    params: BlockParams,
    levels: &mut [i32],
) -> ListAnswer
    ensures { list_left result statistics.new levels.new ≡ read_list list.now statistics.old params levels.old }
{
    let n = params_flags(params);
    if n != 0 {
        return ListAnswer::from(Err(n));
    }
    let r = read_bins(list, statistics, params.into(), levels);
    ListAnswer::from(r)
}
