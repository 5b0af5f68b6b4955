// Reading into a kept block. Flags are bytes, and one above 1 is 4, as in the readers of a block.
ghost use Rattle.std.specs.Prelude.{◌≡◌};
ghost use Rattle.hevc_summary.specs.Agree.{kept_of};
ghost use Rattle.bulmegart_summary.specs.Readers.{block_left, list_left, read_block, read_list};

use bins::tags::CONTEXTS;
use bulmegart::records::{BlockParams, EngineState, block_handed, params_flags};
use bulmegart_blocks::blocks::{BlockAnswer, ListAnswer, block_answer};
use hevc_kept_reader::reading::{read_kept, read_kept_bins};
use hevc_summary::kept::{Form, Whole};

// A reader's answer, and the record of the whole behind it.
#[repr(C)]
#[derive(Clone, Copy)]
pub struct KeptBlockAnswer {
    pub block: BlockAnswer,
    pub whole: Whole,
}

#[repr(C)]
#[derive(Clone, Copy)]
pub struct KeptListAnswer {
    pub list: ListAnswer,
    pub whole: Whole,
}

// A block from a payload.
#[unsafe(no_mangle)]
pub extern "C" fn bulmegart_read_kept(
    payload: &[u8],
    state: EngineState,
    contexts: &mut [u8; CONTEXTS],
    statistics: &mut [u8; 4],
    params: BlockParams,
    levels: &mut [i32],
    counts: &mut [u32; 64],
    sums: &mut [u64; 64],
    form: Form,
    whole: Whole,
) -> KeptBlockAnswer
    ensures { block_left result contexts.new statistics.new levels.new counts.new sums.new ≡ read_block form payload.now state contexts.old statistics.old params (kept_of levels.old counts.old sums.old whole) }
{
    let n = block_handed(payload, state, params);
    if n != 0 {
        let no = block_answer(Err(n), state);
        return KeptBlockAnswer { block: no, whole };
    }
    let r = read_kept(
        payload,
        state.into(),
        contexts,
        statistics,
        params.into(),
        levels,
        counts,
        sums,
        form,
        whole,
    );
    let read = r.read;
    let after = r.whole;
    let block = block_answer(read, state);
    KeptBlockAnswer {
        block,
        whole: after,
    }
}

// A block from a bin list, which it must end.
#[unsafe(no_mangle)]
pub extern "C" fn bulmegart_read_kept_bins(
    list: &[u8],
    statistics: &mut [u8; 4],
    params: BlockParams,
    levels: &mut [i32],
    counts: &mut [u32; 64],
    sums: &mut [u64; 64],
    form: Form,
    whole: Whole,
) -> KeptListAnswer
    ensures { list_left result statistics.new levels.new counts.new sums.new ≡ read_list form list.now statistics.old params (kept_of levels.old counts.old sums.old whole) }
{
    let n = params_flags(params);
    if n != 0 {
        let no = ListAnswer::from(Err(n));
        return KeptListAnswer { list: no, whole };
    }
    let r = read_kept_bins(
        list,
        statistics,
        params.into(),
        levels,
        counts,
        sums,
        form,
        whole,
    );
    let read = r.read;
    let behind = r.whole;
    let answer = ListAnswer::from(read);
    KeptListAnswer {
        list: answer,
        whole: behind,
    }
}
