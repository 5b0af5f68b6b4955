// The two entry points: a block from a payload, and a block from a bin list.
// Each takes anything: what document 01 does not accept is answered by its number.
ghost use Rattle.std.specs.Prelude.{◌≡◌, true};
ghost use Rattle.tables.specs.Decisions.{decisions};
ghost use Rattle.hevc_residual.specs.Wanted.{area};
ghost use Rattle.hevc_residual.specs.Entries.{read_payload, read_bins};
ghost use Rattle.hevc_residual.specs.Answers.{payload_read, bins_read, payload_checks};

use bins::places::SourcePlace;
use bins::state::{Engine, Interval};
use bins::tags::CONTEXTS;
use cabac_checks::checks::passed;
use cabac_state::engine::{open, settle};
use hevc_block::block::Blocked;
use hevc_checks::checks::bins_checks;
use hevc_payload_checks::checks::check_payload;
use hevc_read_into::into::read_into;
use hevc_residual::answers::{Read, ReadBlock, ReadList};
use hevc_residual::params::Params;
use hevc_sizes::clear::clear;
use hevc_sizes::sizes::area_of;
use tables::decision_table;

// One block from a payload, of what the checks let through, by a table that is lent: for callers that read several.
pub fn read_checked(
    table: &[u32; 512],
    bytes: &[u8],
    e: Engine,
    contexts: &mut [u8; CONTEXTS],
    stats: &mut [u8; 4],
    p: Params,
    block: &mut [i32],
) -> Read
    requires { (table.now ≡ decisions) × (0 ≡ payload_checks bytes.now e contexts.old stats.old p block.old) }
    ensures { payload_read result contexts.new stats.new block.new ≡ read_payload bytes.now e contexts.old stats.old p block.old }
{
    match read_into(false, table, contexts, stats, bytes, p, block, open(e)) {
        Ok(Blocked { found, next }) => {
            let state = settle(bytes, e, next);
            Ok(ReadBlock { found, state })
        }
        Err(refusal) => Err(refusal.number),
    }
}

// One block from a payload. What the extents say of an accepted block: specs/Reach.antt, `block_reach`.
pub fn residual_coding(
    bytes: &[u8],
    e: Engine,
    contexts: &mut [u8; CONTEXTS],
    stats: &mut [u8; 4],
    p: Params,
    block: &mut [i32],
) -> Read
    ensures { payload_read result contexts.new stats.new block.new ≡ read_payload bytes.now e contexts.old stats.old p block.old }
{
    check_payload(bytes, e, contexts, stats, p, block)?;
    let table = decision_table();
    read_checked(&table, bytes, e, contexts, stats, p, block)
}

// One block from a bin list, which it must end. What the extents say: specs/Reach.antt, `list_reach`.
pub fn read_bins(bytes: &[u8], stats: &mut [u8; 4], p: Params, block: &mut [i32]) -> ReadList
    ensures { bins_read result stats.new block.new ≡ read_bins bytes.now stats.old p block.old }
{
    passed(bins_checks(stats, p, block))?;
    let mut contexts = [0u8; CONTEXTS];
    let mut st = *stats;
    let front = Interval {
        range: 256,
        offset: 0,
        position: SourcePlace(0),
    };
    let table = decision_table();
    let read = match read_into(true, &table, &mut contexts, &mut st, bytes, p, block, front) {
        Ok(read) => read,
        Err(refusal) => return Err(refusal.number),
    };
    let at = read.next.position;
    if at.0 != bytes.len() {
        clear(block, area_of(p.log2));
        return Err(13);
    }
    *stats = st;
    Ok(read.found)
}
