// H.264's block.
ghost use Rattle.std.specs.Prelude.{◌≡◌};
ghost use Rattle.h264_block.specs.Contexts.{pairs_refusal, contexts_after};
ghost use Rattle.bulmegart_h264.specs.Exported.{block_left, read_block, list_left, read_list, list_written, write_list};

use bulmegart::records::EngineState;
use bulmegart_blocks::lists::WriteAnswer;
use bulmegart_h264::{H264BlockAnswer, H264ListAnswer};

// The lent contexts from 40 pairs m, n, one after the other.
#[unsafe(no_mangle)]
pub extern "C" fn bulmegart_h264_init_pairs(contexts: &mut [u8; 40], pairs: &[i32], qp: u8) -> u32
    ensures { (result ≡ pairs_refusal pairs.now) × (contexts.new ≡ contexts_after result contexts.old pairs.now qp) }
{
    bulmegart_h264::bulmegart_h264_init_pairs(contexts, pairs, qp)
}

// One block from a payload.
#[unsafe(no_mangle)]
pub extern "C" fn bulmegart_h264_residual_block(
    payload: &[u8],
    state: EngineState,
    contexts: &mut [u8; 40],
    levels: &mut [i32],
) -> H264BlockAnswer
    ensures { block_left result contexts.new levels.new ≡ read_block payload.now state contexts.old levels.old }
{
    bulmegart_h264::bulmegart_h264_residual_block(payload, state, contexts, levels)
}

// One block from a bin list, which it must end.
#[unsafe(no_mangle)]
pub extern "C" fn bulmegart_h264_read_bins(list: &[u8], levels: &mut [i32]) -> H264ListAnswer
    ensures { list_left result levels.new ≡ read_list list.now levels.old }
{
    bulmegart_h264::bulmegart_h264_read_bins(list, levels)
}

// One block as a bin list in the room.
#[unsafe(no_mangle)]
pub extern "C" fn bulmegart_h264_write_bins(levels: &[i32], room: &mut [u8]) -> WriteAnswer
    ensures { list_written result room.new ≡ write_list levels.now room.old }
{
    bulmegart_h264::bulmegart_h264_write_bins(levels, room)
}
