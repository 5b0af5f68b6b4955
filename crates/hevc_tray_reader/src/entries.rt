// The entry point: records of parameters, one payload, one long buffer of levels cut into consecutive n·n parts.
// It takes anything: what document 01 does not accept is answered by its number.
ghost use Rattle.std.specs.Prelude.{◌≡◌, length};
ghost use Rattle.cabac.specs.Numbers.{checked};
ghost use Rattle.hevc_tray.specs.Rows.{rows_refusal, records_of};
ghost use Rattle.hevc_tray.specs.Tray.{records_refusal, tray_checks, read_rows};
ghost use Rattle.hevc_tray.specs.Seen.{read_no, tray_seen};

use crate::rows::{params_of, row_of, rows_refusal};
use bins::state::Engine;
use bins::tags::CONTEXTS;
use cabac_checks::checks::{passed, payload_refusal, state_refusal};
use hevc_checks::checks::{above_refusal, parameter_refusal};
use hevc_reader::entries::read_checked;
use hevc_residual::answers::Read;
use hevc_sizes::sizes::area_of;
use hevc_tray::entries::Tray;
use tables::decision_table;

fn read_refusal(r: Read) -> u32
    ensures { result ≡ read_no r }
{
    match r {
        Ok(_) => 0,
        Err(n) => n,
    }
}

// 4: a record out of its limits, or one for whose part too few places are left
fn check_records(records: &[[u8; 14]], levels: &[i32]) -> Result<(), u32>
    ensures { result ≡ checked (records_refusal (records_of records.now) levels.now) }
{
    let mut at: usize = 0;
    for record in records {
        let p = params_of(*record);
        passed(parameter_refusal(p, &levels[at..]))?;
        at += area_of(p.log2);
    }
    Ok(())
}

// 1, 2, 4, 3, 6
fn check_tray(
    bytes: &[u8],
    e: Engine,
    contexts: &[u8],
    stats: &[u8],
    records: &[[u8; 14]],
    levels: &[i32],
    rooms: usize,
) -> Result<(), u32>
    ensures { result ≡ checked (tray_checks bytes.now e contexts.now stats.now (rows_refusal records.now) (records_of records.now) levels.now rooms) }
{
    passed(payload_refusal(bytes))?;
    if 256 < records.len() {
        return Err(4);
    }
    passed(rows_refusal(records))?;
    check_records(records, levels)?;
    if rooms < records.len() {
        return Err(4);
    }
    passed(state_refusal(bytes, e))?;
    passed(above_refusal(contexts, 127))?;
    passed(above_refusal(stats, 84))?;
    if e.ended {
        return Err(6);
    }
    Ok(())
}

// Behind the checks: block after block, by one table.
fn read_blocks(
    bytes: &[u8],
    e: Engine,
    contexts: &mut [u8; CONTEXTS],
    stats: &mut [u8; 4],
    records: &[[u8; 14]],
    levels: &mut [i32],
    found: &mut [[u32; 5]],
) -> Tray
    requires { 0 ≡ tray_checks bytes.now e contexts.old stats.old (rows_refusal records.now) (records_of records.now) levels.old (length found.old) }
    ensures { tray_seen result contexts.new stats.new levels.new found.new ≡ read_rows bytes.now e contexts.old stats.old records.now levels.old found.old }
{
    let table = decision_table();
    let mut state = e;
    let mut at: usize = 0;
    for (i, record) in records.iter().enumerate() {
        let p = params_of(*record);
        let end = at + area_of(p.log2);
        let r = read_checked(
            &table,
            bytes,
            state,
            contexts,
            stats,
            p,
            &mut levels[at..end],
        );
        let Ok(b) = r else {
            return Tray {
                done: i,
                number: read_refusal(r),
                state,
            };
        };
        found[i] = row_of(b.found);
        state = b.state;
        at = end;
    }
    Tray {
        done: records.len(),
        number: 0,
        state,
    }
}

// A tray of blocks from a payload.
pub fn read_tray(
    bytes: &[u8],
    e: Engine,
    contexts: &mut [u8; CONTEXTS],
    stats: &mut [u8; 4],
    records: &[[u8; 14]],
    levels: &mut [i32],
    found: &mut [[u32; 5]],
) -> Tray
    ensures { tray_seen result contexts.new stats.new levels.new found.new ≡ read_rows bytes.now e contexts.old stats.old records.now levels.old found.old }
{
    if records.len() == 0 {
        return Tray {
            done: 0,
            number: 0,
            state: e,
        };
    }
    if let Err(number) = check_tray(bytes, e, contexts, stats, records, levels, found.len()) {
        return Tray {
            done: 0,
            number,
            state: e,
        };
    }
    read_blocks(bytes, e, contexts, stats, records, levels, found)
}
