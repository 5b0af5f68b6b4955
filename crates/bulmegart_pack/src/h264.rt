// An H.264 block's list as a payload in the room.
ghost use Rattle.std.specs.Prelude.{◌≡◌};
ghost use Rattle.h264_packer.specs.Entries.{pack_bins};
ghost use Rattle.bulmegart_pack.specs.Packed.{pack_left, pack_seen};

use bulmegart_blocks::lists::WriteAnswer;
use h264_packer::entries::pack_bins;

// One block's list. Contexts are read only.
#[unsafe(no_mangle)]
pub extern "C" fn bulmegart_h264_pack_bins(
    contexts: &[u8; 40],
    list: &[u8],
    room: &mut [u8],
) -> WriteAnswer
    ensures { pack_left result room.new ≡ pack_seen (pack_bins contexts.now list.now room.old) }
{
    pack_bins(contexts, list, room).into()
}
