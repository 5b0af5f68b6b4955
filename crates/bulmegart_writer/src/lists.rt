// The writer of bins.
ghost use Rattle.std.specs.Prelude.{◌≡◌};
ghost use Rattle.bulmegart_blocks.specs.Lists.{write_left, write_block};

use bulmegart::records::{BlockParams, is_set};
use bulmegart_blocks::lists::{WriteAnswer, choice_of, write_handed};
use hevc_writer::entries::write_bins;

// One block as a bin list in the room.
#[unsafe(no_mangle)]
pub extern "C" fn bulmegart_write_bins(
    params: BlockParams,
    statistics: &mut [u8; 4],
    levels: &[i32],
    skip: u8,
    rdpcm: u8,
    room: &mut [u8],
) -> WriteAnswer
    ensures { write_left result statistics.new room.new ≡ write_block params statistics.old levels.now skip rdpcm room.old }
{
    let n = write_handed(params, skip, rdpcm);
    if n != 0 {
        return WriteAnswer::from(Err(n));
    }
    let r = write_bins(
        params.into(),
        statistics,
        levels,
        is_set(skip),
        choice_of(rdpcm),
        room,
    );
    WriteAnswer::from(r)
}
