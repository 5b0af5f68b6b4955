// The lists of a tray, one after the other in one slice. Each ends where its block does: no lengths are handed in, so none can be wrong.
ghost use Rattle.std.specs.Prelude.{◌≡◌, ◌≤◌, length};
ghost use Rattle.tables.specs.Decisions.{decisions};
ghost use Rattle.hevc_residual.specs.Limits.{Statistics};
ghost use Rattle.hevc_residual.specs.Numbers.{parameter_refusal};
ghost use Rattle.hevc_tray.specs.Rows.{records_of};
ghost use Rattle.hevc_packer.specs.Entries.{places};
ghost use Rattle.hevc_packer.specs.Tray.{records_refusal};
ghost use Rattle.hevc_tray_packer.specs.Rows.{lists};
ghost use Rattle.hevc_tray_packer.specs.ListCode.{SaysList, lists_seen};

use bins::places::SourcePlace;
use bins::state::Interval;
use bins::tags::CONTEXTS;
use hevc_block::block::read_block;
use hevc_residual::params::Params;
use hevc_sizes::sizes::area_of;
use hevc_tray_reader::rows::params_of;
use tables::decision_table;

// How many lists were read, and whether they are all that there is. A Result would be no plainer: the count is told of both.
#[derive(Clone, Copy)]
pub struct Lists {
    pub done: usize,
    pub whole: bool,
}

// The place behind the list that begins at a place, or none where it is refused. Its block goes into 1,024 places of the function's own, the statistics on to the next.
fn one_list(
    table: &[u32; 512],
    stats: &mut [u8; 4],
    list: &[u8],
    p: Params,
    at: usize,
) -> Option<usize>
    requires { (table.now ≡ decisions) × (0 ≡ parameter_refusal p places) × Statistics stats.old × (at ≤ length list.now) }
    ensures { SaysList p list.now at stats.old result stats.new }
{
    let mut contexts = [0u8; CONTEXTS];
    let mut block = [0i32; 1024];
    let n = area_of(p.log2);
    let front = Interval {
        range: 256,
        offset: 0,
        position: SourcePlace(at),
    };
    let r = read_block(
        true,
        table,
        &mut contexts,
        stats,
        list,
        p,
        &mut block[..n],
        front,
    );
    match r {
        Ok(read) => Some(read.next.position.0),
        Err(_) => None,
    }
}

// List after list, by one table.
pub fn read_lists(stats: &[u8; 4], records: &[[u8; 14]], list: &[u8]) -> Lists
    requires { (0 ≡ records_refusal (records_of records.now)) × Statistics stats.now }
    ensures { lists_seen result ≡ lists (records_of records.now) stats.now list.now }
{
    let table = decision_table();
    let mut st = *stats;
    let mut at: usize = 0;
    for (i, record) in records.iter().enumerate() {
        let Some(end) = one_list(&table, &mut st, list, params_of(*record), at) else {
            return Lists {
                done: i,
                whole: false,
            };
        };
        at = end;
    }
    Lists {
        done: records.len(),
        whole: at == list.len(),
    }
}
