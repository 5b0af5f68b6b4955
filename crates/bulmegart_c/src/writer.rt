// The writer of bins.
ghost use Rattle.std.specs.Prelude.{◌≡◌};
ghost use Rattle.bulmegart_blocks.specs.Lists.{write_left, write_block};

use bulmegart::records::BlockParams;
use bulmegart_blocks::lists::WriteAnswer;

// One block as a bin list in the room.
#[unsafe(no_mangle)]
pub extern "C" fn bulmegart_write_bins(
    params: BlockParams,
    statistics: &mut [u8; 4],
    levels: &[i32],
    skip: u8,
    rdpcm: u8,
    room: &mut [u8],
) -> WriteAnswer
    ensures { write_left result statistics.new room.new ≡ write_block params statistics.old levels.now skip rdpcm room.old }
{
    bulmegart_writer::lists::bulmegart_write_bins(params, statistics, levels, skip, rdpcm, room)
}
