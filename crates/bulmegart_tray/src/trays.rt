// A tray of blocks. A record is a row of 14 bytes and what is found of a block a row of five numbers: the header shows both as structs.
ghost use Rattle.std.specs.Prelude.{◌≡◌};
ghost use Rattle.bulmegart_tray.specs.Trays.{tray_answered, tray_left, tray_read};

use bins::tags::CONTEXTS;
use bulmegart::records::{EngineState, state_handed};
use hevc_tray::entries::Tray;
use hevc_tray_reader::entries::read_tray;

#[repr(C)]
#[derive(Clone, Copy)]
pub struct TrayAnswer {
    pub number: u32,
    pub done: usize,
    pub state: EngineState,
}

impl From<Tray> for TrayAnswer {
    ghost from_gives = { λ t a. a ≡ tray_answered t.number t.done t.state };

    fn from(t: Tray) -> TrayAnswer {
        TrayAnswer {
            number: t.number,
            done: t.done,
            state: t.state.into(),
        }
    }
}

// Block after block. With no records nothing is looked at, the state's flag neither.
#[unsafe(no_mangle)]
pub extern "C" fn bulmegart_read_tray(
    payload: &[u8],
    state: EngineState,
    contexts: &mut [u8; CONTEXTS],
    statistics: &mut [u8; 4],
    records: &[[u8; 14]],
    levels: &mut [i32],
    found: &mut [[u32; 5]],
) -> TrayAnswer
    ensures { tray_left result contexts.new statistics.new levels.new found.new ≡ tray_read payload.now state contexts.old statistics.old records.now levels.old found.old }
{
    if records.len() == 0 {
        return TrayAnswer {
            number: 0,
            done: 0,
            state,
        };
    }
    let n = state_handed(payload, state);
    if n != 0 {
        return TrayAnswer {
            number: n,
            done: 0,
            state,
        };
    }
    read_tray(
        payload,
        state.into(),
        contexts,
        statistics,
        records,
        levels,
        found,
    )
    .into()
}
