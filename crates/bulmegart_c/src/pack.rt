// Bin lists as payloads: a block's, a scale's, those of a tray, and an H.264 block's.
ghost use Rattle.std.specs.Prelude.{◌≡◌};
ghost use Rattle.bulmegart_pack.specs.Packed.{pack_left, pack_block, pack_seen};
ghost use Rattle.hevc_packer.specs.Entries.{pack_scale};
ghost use Rattle.hevc_tray_packer.specs.Rows.{pack_rows};
ghost use Rattle.bulmegart_pack.specs.Trays.{tray_left, tray_seen};
ghost use Rattle.h264_packer.specs.Entries.{pack_bins};

use bins::tags::CONTEXTS;
use bulmegart::records::BlockParams;
use bulmegart_blocks::lists::WriteAnswer;
use bulmegart_pack::trays::PackTrayAnswer;

// One block's list. Contexts and statistics are read only.
#[unsafe(no_mangle)]
pub extern "C" fn bulmegart_pack_bins(
    contexts: &[u8; CONTEXTS],
    statistics: &[u8; 4],
    params: BlockParams,
    list: &[u8],
    room: &mut [u8],
) -> WriteAnswer
    ensures { pack_left result room.new ≡ pack_block contexts.now statistics.now params list.now room.old }
{
    bulmegart_pack::packs::bulmegart_pack_bins(contexts, statistics, params, list, room)
}

// One scale's list, of chroma component 0 or 1.
#[unsafe(no_mangle)]
pub extern "C" fn bulmegart_pack_scale(
    contexts: &[u8; CONTEXTS],
    component: u32,
    list: &[u8],
    room: &mut [u8],
) -> WriteAnswer
    ensures { pack_left result room.new ≡ pack_seen (pack_scale contexts.now component list.now room.old) }
{
    bulmegart_pack::packs::bulmegart_pack_scale(contexts, component, list, room)
}

// List after list, in the order of the records. Contexts and statistics are read only.
#[unsafe(no_mangle)]
pub extern "C" fn bulmegart_pack_tray(
    contexts: &[u8; CONTEXTS],
    statistics: &[u8; 4],
    records: &[[u8; 14]],
    lists: &[u8],
    room: &mut [u8],
) -> PackTrayAnswer
    ensures { tray_left result room.new ≡ tray_seen (pack_rows contexts.now statistics.now records.now lists.now room.old) }
{
    bulmegart_pack::trays::bulmegart_pack_tray(contexts, statistics, records, lists, room)
}

// The list of an H.264 block. Contexts are read only.
#[unsafe(no_mangle)]
pub extern "C" fn bulmegart_h264_pack_bins(
    contexts: &[u8; 40],
    list: &[u8],
    room: &mut [u8],
) -> WriteAnswer
    ensures { pack_left result room.new ≡ pack_seen (pack_bins contexts.now list.now room.old) }
{
    bulmegart_pack::h264::bulmegart_h264_pack_bins(contexts, list, room)
}
