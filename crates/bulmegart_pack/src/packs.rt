// A block's list, and a scale's, as a payload in the room. The answer's length is 0 after a refusal.
ghost use Rattle.std.specs.Prelude.{◌≡◌};
ghost use Rattle.hevc_packer.specs.Entries.{pack_scale};
ghost use Rattle.bulmegart_pack.specs.Packed.{pack_left, pack_seen, pack_block};

use bins::tags::CONTEXTS;
use bulmegart::records::{BlockParams, params_flags};
use bulmegart_blocks::lists::WriteAnswer;
use hevc_block_packer::entries::pack_bins;
use hevc_packer::entries::pack_scale;

// One block's list. Contexts and statistics are read only.
#[unsafe(no_mangle)]
pub extern "C" fn bulmegart_pack_bins(
    contexts: &[u8; CONTEXTS],
    statistics: &[u8; 4],
    params: BlockParams,
    list: &[u8],
    room: &mut [u8],
) -> WriteAnswer
    ensures { pack_left result room.new ≡ pack_block contexts.now statistics.now params list.now room.old }
{
    let n = params_flags(params);
    if n != 0 {
        return WriteAnswer::from(Err(n));
    }
    let r = pack_bins(contexts, statistics, params.into(), list, room);
    WriteAnswer::from(r)
}

// One scale's list, of chroma component 0 or 1.
#[unsafe(no_mangle)]
pub extern "C" fn bulmegart_pack_scale(
    contexts: &[u8; CONTEXTS],
    component: u32,
    list: &[u8],
    room: &mut [u8],
) -> WriteAnswer
    ensures { pack_left result room.new ≡ pack_seen (pack_scale contexts.now component list.now room.old) }
{
    pack_scale(contexts, component, list, room).into()
}
