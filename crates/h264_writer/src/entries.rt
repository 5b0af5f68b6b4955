// The entry point: a block as bins. It takes anything: what is not accepted is answered by its number.
ghost use Rattle.std.specs.Prelude.{◌≡◌};
ghost use Rattle.h264_block.specs.Entries.{write_bins};
ghost use Rattle.h264_writer.specs.EntriesPuts.{bins_written};
ghost use Rattle.h264_writer.specs.Demand3.{Exactly};

use crate::refusal::writable;
use h264_pen::levels::put_block;
use pen::room::Pen;

// The length of the list, in bytes, or the number of the refusal.
pub type Written = Result<usize, u32>;

// The one list that reads as the first 16 places of the block. The room is counted out before anything is written.
pub fn write_bins(block: &[i32], room: &mut [u8]) -> Written
    ensures { (bins_written result room.new ≡ write_bins block.now room.old) × Exactly block.now room.old result room.new }
{
    if block.len() < 16 {
        return Err(4);
    }
    let levels = &block[..16];
    writable(levels)?;
    let count = Pen {
        at: 0,
        over: false,
        writing: false,
    };
    let counted = put_block(room, count, levels);
    if counted.over {
        return Err(12);
    }
    let write = Pen {
        at: 0,
        over: false,
        writing: true,
    };
    let written = put_block(room, write, levels);
    Ok(written.at)
}
