// The lists of a tray's blocks as one payload in the room. A record is a row of 14 bytes, as bulmegart_read_tray takes it.
ghost use Rattle.std.specs.Prelude.{◌≡◌};
ghost use Rattle.hevc_tray_packer.specs.Rows.{pack_rows};
ghost use Rattle.bulmegart_pack.specs.Trays.{tray_left, tray_seen};

use bins::tags::CONTEXTS;
use bulmegart_blocks::lists::WriteAnswer;
use hevc_tray_packer::entries::pack_tray;

// How many lists were read, which the number 13 is about the one behind; the length is 0 after a refusal.
#[repr(C)]
#[derive(Clone, Copy)]
pub struct PackTrayAnswer {
    pub number: u32,
    pub done: usize,
    pub length: usize,
}

// List after list, in the order of the records. Contexts and statistics are read only.
#[unsafe(no_mangle)]
pub extern "C" fn bulmegart_pack_tray(
    contexts: &[u8; CONTEXTS],
    statistics: &[u8; 4],
    records: &[[u8; 14]],
    lists: &[u8],
    room: &mut [u8],
) -> PackTrayAnswer
    ensures { tray_left result room.new ≡ tray_seen (pack_rows contexts.now statistics.now records.now lists.now room.old) }
{
    let t = pack_tray(contexts, statistics, records, lists, room);
    let a = WriteAnswer::from(t.packing);
    PackTrayAnswer {
        number: a.number,
        done: t.done,
        length: a.length,
    }
}
