// H.264's block for C: its entry points as functions that C and Rust call. Each takes anything that it can be handed, and answers by document 01's
// number; include/bulmegart.h says the same for C.
#![tactic(auto)]

ghost use Rattle.std.specs.Prelude.{◌≡◌};
ghost use Rattle.h264_block.specs.Contexts.{pairs_refusal, contexts_after};
ghost use Rattle.h264_reader.specs.EntriesAgree.{read_says, list_says};
ghost use Rattle.bulmegart_h264.specs.Exported.{block_given, list_given, block_left, list_left, list_written, read_block, read_list, write_list};

use bulmegart::records::{EngineState, state_handed};
use bulmegart_blocks::lists::WriteAnswer;
use h264_contexts::contexts::init_pairs;
use h264_reader::entries::{Found, Read, ReadList, read_bins, residual_block};
use h264_writer::entries::write_bins;

// The greatest magnitude is 0 after a refusal, and the state the one handed in.
#[repr(C)]
#[derive(Clone, Copy)]
pub struct H264BlockAnswer {
    pub number: u32,
    pub greatest: u32,
    pub state: EngineState,
}

#[repr(C)]
#[derive(Clone, Copy)]
pub struct H264ListAnswer {
    pub number: u32,
    pub greatest: u32,
}

fn block_answer(r: Read, s: EngineState) -> H264BlockAnswer
    ensures { result ≡ block_given s (read_says r) }
{
    match r {
        Ok(Found { greatest, next }) => H264BlockAnswer {
            number: 0,
            greatest,
            state: next.into(),
        },
        Err(n) => H264BlockAnswer {
            number: n,
            greatest: 0,
            state: s,
        },
    }
}

impl From<ReadList> for H264ListAnswer {
    ghost from_gives = { λ r a. a ≡ list_given (list_says r) };

    fn from(r: ReadList) -> H264ListAnswer {
        match r {
            Ok(greatest) => H264ListAnswer {
                number: 0,
                greatest,
            },
            Err(n) => H264ListAnswer {
                number: n,
                greatest: 0,
            },
        }
    }
}

// The lent contexts from 40 pairs m, n, one after the other.
#[unsafe(no_mangle)]
pub extern "C" fn bulmegart_h264_init_pairs(contexts: &mut [u8; 40], pairs: &[i32], qp: u8) -> u32
    ensures { (result ≡ pairs_refusal pairs.now) × (contexts.new ≡ contexts_after result contexts.old pairs.now qp) }
{
    init_pairs(contexts, pairs, qp)
}

// One block from a payload.
#[unsafe(no_mangle)]
pub extern "C" fn bulmegart_h264_residual_block(
    payload: &[u8],
    state: EngineState,
    contexts: &mut [u8; 40],
    levels: &mut [i32],
) -> H264BlockAnswer
    ensures { block_left result contexts.new levels.new ≡ read_block payload.now state contexts.old levels.old }
{
    let n = state_handed(payload, state);
    if n != 0 {
        return block_answer(Err(n), state);
    }
    let r = residual_block(payload, state.into(), contexts, levels);
    block_answer(r, state)
}

// One block from a bin list, which it must end.
#[unsafe(no_mangle)]
pub extern "C" fn bulmegart_h264_read_bins(list: &[u8], levels: &mut [i32]) -> H264ListAnswer
    ensures { list_left result levels.new ≡ read_list list.now levels.old }
{
    read_bins(list, levels).into()
}

// One block as a bin list in the room.
#[unsafe(no_mangle)]
pub extern "C" fn bulmegart_h264_write_bins(levels: &[i32], room: &mut [u8]) -> WriteAnswer
    ensures { list_written result room.new ≡ write_list levels.now room.old }
{
    WriteAnswer::from(write_bins(levels, room))
}
