// A plain block from a payload.
ghost use Rattle.std.specs.Prelude.{◌≡◌};
ghost use Rattle.bulmegart_blocks.specs.Blocks.{block_left};
ghost use Rattle.bulmegart_plain.specs.Plain.{read_plain_block};

use bins::tags::CONTEXTS;
use bulmegart::records::{BlockParams, EngineState, block_handed};
use bulmegart_blocks::blocks::{BlockAnswer, block_answer};
use hevc_plain_coding::entries::residual_coding_plain;

// One plain block from a payload.
#[unsafe(no_mangle)]
pub extern "C" fn bulmegart_residual_coding_plain(
    payload: &[u8],
    state: EngineState,
    contexts: &mut [u8; CONTEXTS],
    statistics: &mut [u8; 4],
    params: BlockParams,
    levels: &mut [i32],
) -> BlockAnswer
    ensures { block_left result contexts.new statistics.new levels.new ≡ read_plain_block payload.now state contexts.old statistics.old params levels.old }
{
    let n = block_handed(payload, state, params);
    if n != 0 {
        return block_answer(Err(n), state);
    }
    let r = residual_coding_plain(
        payload,
        state.into(),
        contexts,
        statistics,
        params.into(),
        levels,
    );
    block_answer(r, state)
}
