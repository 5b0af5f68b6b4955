// The entry point: the lists of a tray's blocks as one payload in a lent room, contexts and statistics carried on, one flush.
// It takes anything: what is not accepted is answered by its number. Contexts and statistics are read only.
ghost use Rattle.std.specs.Prelude.{◌≡◌};
ghost use Rattle.cabac.specs.Numbers.{checked};
ghost use Rattle.hevc_tray.specs.Rows.{records_of, rows_refusal};
ghost use Rattle.hevc_packer.specs.Tray.{records_refusal};
ghost use Rattle.hevc_tray_packer.specs.Rows.{row_checks, pack_rows};
ghost use Rattle.hevc_tray_packer.specs.Promise.{tray_says, TrayBack};

use crate::lists::read_lists;
use bins::tags::CONTEXTS;
use cabac_checks::checks::passed;
use hevc_checks::checks::{above_refusal, parameter_refusal};
use hevc_tray_reader::rows::{params_of, rows_refusal};
use packer::list::{Packing, pack_from};

// The payload or the refusal, and how many lists were read before it.
#[derive(Clone, Copy)]
pub struct TrayPacking {
    pub done: usize,
    pub packing: Packing,
}

// 4: a record out of its limits
fn check_records(records: &[[u8; 14]]) -> Result<(), u32>
    ensures { result ≡ checked (records_refusal (records_of records.now)) }
{
    let block = [0i32; 1024];
    for record in records {
        passed(parameter_refusal(params_of(*record), &block))?;
    }
    Ok(())
}

// 4, 3
fn check_tray(contexts: &[u8], stats: &[u8], records: &[[u8; 14]]) -> Result<(), u32>
    ensures { result ≡ checked (row_checks contexts.now stats.now records.now) }
{
    passed(rows_refusal(records))?;
    if 256 < records.len() {
        return Err(4);
    }
    check_records(records)?;
    passed(above_refusal(contexts, 127))?;
    passed(above_refusal(stats, 84))
}

// A tray's lists. The bin reader takes them or not; then they are packed as one list, by their own entries.
pub fn pack_tray(
    contexts: &[u8; CONTEXTS],
    stats: &[u8; 4],
    records: &[[u8; 14]],
    list: &[u8],
    room: &mut [u8],
) -> TrayPacking
    ensures { (tray_says result room.new ≡ pack_rows contexts.now stats.now records.now list.now room.old) × TrayBack contexts.now stats.now records.now list.now room.old result.packing room.new }
{
    if let Err(n) = check_tray(contexts, stats, records) {
        return TrayPacking {
            done: 0,
            packing: Err(n),
        };
    }
    let read = read_lists(stats, records, list);
    let done = read.done;
    if read.whole {
        return TrayPacking {
            done,
            packing: pack_from(contexts, list, room),
        };
    }
    TrayPacking {
        done,
        packing: Err(13),
    }
}
