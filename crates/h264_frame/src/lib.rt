// One block of H.264 as a frame: QP, the payload's length in two bytes, high first, 40 pairs m, n as signed bytes, the payload.
#![tactic(auto)]

ghost use Rattle.std.specs.Prelude.{◌≡◌, true, ◌+◌, ◌*◌, ◌≤◌, ◌<◌, length, get_or, Some};
ghost use Rattle.cabac.specs.Numbers.{accepted};
ghost use Rattle.h264_block.specs.Contexts.{pairs_refusal, contexts_after};
ghost use Rattle.h264_block.specs.Entries.{read_payload};
ghost use Rattle.h264_reader.specs.EntriesAgree.{payload_read};
ghost use Rattle.h264_frame.specs.Frame.{no_levels, byte_signed, pairs_of, formed, started_read, started_levels, shown, levels_of, zigzag};

use bins::state::Engine;
use cabac_engine::engine::start;
use h264_contexts::contexts::init_pairs;
use h264_reader::entries::{Read, residual_block};

// The block found, or the number of the refusal; none where these are not the bytes of a frame.
pub type Shown = Option<Read>;

// A byte as two's complement has it.
fn signed(b: u8) -> i32
    ensures { result ≡ byte_signed b }
{
    i32::from(b.cast_signed())
}

// The numbers of the pairs, m before n.
fn put_pairs(bytes: &[u8], out: &mut [i32; 80])
    requires { 83 ≤ length bytes.now }
    ensures { out.new ≡ pairs_of bytes.now }
{
    for (i, number) in out.iter_mut().enumerate() {
        *number = signed(bytes[3 + i]);
    }
}

// Arrays lent as slices, whose length no caller has to show.
fn initial(contexts: &mut [u8; 40], pairs: &[i32; 80], q: u8) -> u32
    ensures { (result ≡ pairs_refusal pairs.now) × (contexts.new ≡ contexts_after result contexts.old pairs.now q) }
{
    init_pairs(contexts, pairs, q)
}

fn block(bytes: &[u8], e: Engine, contexts: &mut [u8; 40], levels: &mut [i32; 16]) -> Read
    ensures { payload_read result contexts.new levels.new ≡ read_payload bytes.now e contexts.old levels.old }
{
    residual_block(bytes, e, contexts, levels)
}

// The block, from the state behind the start, with the frame's own contexts.
fn read_from(bytes: &[u8], e: Engine, levels: &mut [i32; 16]) -> Read
    requires { (83 ≤ length bytes.now) × (levels.old ≡ no_levels) }
    ensures { (result ≡ started_read bytes.now (accepted e)) × (levels.new ≡ started_levels bytes.now (accepted e)) }
{
    let mut contexts = [0u8; 40];
    let mut pairs = [0i32; 80];
    put_pairs(bytes, &mut pairs);
    initial(&mut contexts, &pairs, bytes[0]);
    block(&bytes[83..], e, &mut contexts, levels)
}

// What the two bytes of the length say.
fn length_said(high: u8, low: u8) -> usize
    ensures { (result ≡ 256 * high + low) × (result ≤ 65535) }
{
    256 * high as usize + low as usize
}

fn is_formed(bytes: &[u8]) -> bool
    ensures { result ≡ formed bytes.now }
{
    if bytes.len() < 83 {
        return false;
    }
    bytes.len() == 83 + length_said(bytes[1], bytes[2])
}

// 1 and 5 of the start, then the reader's own.
fn read_formed(bytes: &[u8], levels: &mut [i32; 16]) -> Read
    requires { (true ≡ formed bytes.now) × (83 ≤ length bytes.now) × (levels.old ≡ no_levels) }
    ensures { (Some result ≡ shown bytes.now) × (levels.new ≡ levels_of bytes.now) }
{
    let s = start(&bytes[83..]);
    match s {
        Ok(e) => read_from(bytes, e, levels),
        Err(n) => Err(n),
    }
}

// What is shown of the bytes of a frame, whatever they are. The levels by list place are left, whatever stood there; 0 throughout where it is refused.
pub fn read_frame(bytes: &[u8], levels: &mut [i32; 16]) -> Shown
    ensures { (result ≡ shown bytes.now) × (levels.new ≡ levels_of bytes.now) }
{
    *levels = [0i32; 16];
    if is_formed(bytes) {
        return Some(read_formed(bytes, levels));
    }
    None
}

// The list place of the level in each row and column, row by row: the zig-zag scan of frames.
const ZIGZAG: [u8; 16] = [0, 1, 5, 6, 2, 4, 7, 12, 3, 8, 11, 13, 9, 10, 14, 15];

pub fn list_place(row: usize, column: usize) -> usize
    requires { (row < 4) × (column < 4) }
    ensures { (result ≡ get_or zigzag (4 * row + column) 0) × (result < 16) }
{
    ZIGZAG[4 * row + column] as usize
}
