// A block into the first places that are lent, by a table that is lent.
ghost use Rattle.std.specs.Prelude.{◌≡◌, ◌≤◌, length};
ghost use Rattle.tables.specs.Decisions.{decisions};
ghost use Rattle.hevc_residual.specs.Wanted.{area};
ghost use Rattle.hevc_elements.specs.Agree.{Reads};
ghost use Rattle.hevc_residual.specs.Limits.{Accepted, Statistics};
ghost use Rattle.hevc_read_into.specs.IntoAgree.{SaysInto};

use bins::state::{Interval, Refusal};
use bins::tags::CONTEXTS;
use hevc_block::block::{Blocked, read_block};
use hevc_residual::params::Params;
use hevc_sizes::clear::clear;
use hevc_sizes::sizes::area_of;

// A block into the first places, by a table that is lent. Contexts and statistics are worked on where they lie; a copy is put back where the block is refused.
pub fn read_into(
    list: bool,
    table: &[u32; 512],
    contexts: &mut [u8; CONTEXTS],
    stats: &mut [u8; 4],
    bytes: &[u8],
    p: Params,
    block: &mut [i32],
    x: Interval,
) -> Result<Blocked, Refusal>
    requires { Reads list bytes.now x contexts.old × (table.now ≡ decisions) × Accepted p × (area p ≤ length block.old) × Statistics stats.old }
    ensures { SaysInto p list bytes.now x contexts.old stats.old block.old result contexts.new stats.new block.new }
{
    let contexts_before = *contexts;
    let stats_before = *stats;
    let n = area_of(p.log2);
    clear(block, n);
    let r = read_block(list, table, contexts, stats, bytes, p, &mut block[..n], x);
    if r.is_err() {
        *contexts = contexts_before;
        *stats = stats_before;
        clear(block, n);
    }
    r
}
