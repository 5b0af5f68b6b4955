// A tray of blocks. A record is a row of 14 bytes and what is found of a block a row of five numbers: the header shows both as structs.
ghost use Rattle.std.specs.Prelude.{◌≡◌};
ghost use Rattle.bulmegart_tray.specs.Trays.{tray_left, tray_read};

use bins::tags::CONTEXTS;
use bulmegart::records::EngineState;
use bulmegart_tray::trays::TrayAnswer;

// Block after block. With no records nothing is looked at, the state's flag neither.
#[unsafe(no_mangle)]
pub extern "C" fn bulmegart_read_tray(
    payload: &[u8],
    state: EngineState,
    contexts: &mut [u8; CONTEXTS],
    statistics: &mut [u8; 4],
    records: &[[u8; 14]],
    levels: &mut [i32],
    found: &mut [[u32; 5]],
) -> TrayAnswer
    ensures { tray_left result contexts.new statistics.new levels.new found.new ≡ tray_read payload.now state contexts.old statistics.old records.now levels.old found.old }
{
    bulmegart_tray::trays::bulmegart_read_tray(
        payload, state, contexts, statistics, records, levels, found,
    )
}
