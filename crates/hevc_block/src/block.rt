// The whole block.
ghost use Rattle.std.specs.Prelude.{◌≡◌, ◌-◌, length, replicate, pos};
ghost use Rattle.tables.specs.Decisions.{decisions};
ghost use Rattle.hevc_residual.specs.Wanted.{area};
ghost use Rattle.hevc_elements.specs.Agree.{Reads};
ghost use Rattle.hevc_residual.specs.Limits.{Accepted, Statistics};
ghost use Rattle.hevc_block.specs.BlockAgree.{found_at, SaysBlock};

use bins::state::{Interval, Refusal};
use bins::tags::CONTEXTS;
use hevc_head::head::{Headed, read_head};
use hevc_head_rules::head::Head;
use hevc_residual::answers::Found;
use hevc_residual::params::Params;
use hevc_sizes::sizes::grid;
use hevc_stored::stored::told_of;
use hevc_walk::walk::sub_blocks;
use level_sizes::sizes::greatest;

// What is found in a block, and the state behind it.
#[derive(Clone, Copy)]
pub struct Blocked {
    pub found: Found,
    pub next: Interval,
}

fn found_of(h: Head, column: u32, row: u32, greatest: u32) -> Found
    ensures { result ≡ found_at h column row greatest }
{
    let rdpcm = h.rdpcm;
    Found {
        skip: h.skip,
        rdpcm,
        column,
        row,
        greatest,
    }
}

// The block is all zero, and as long as the syntax's.
pub fn read_block(
    list: bool,
    table: &[u32; 512],
    contexts: &mut [u8; CONTEXTS],
    stats: &mut [u8; 4],
    bytes: &[u8],
    p: Params,
    block: &mut [i32],
    x: Interval,
) -> Result<Blocked, Refusal>
    requires { Reads list bytes.now x contexts.old × (table.now ≡ decisions) × Accepted p × (block.old ≡ replicate (area p) (pos 0)) × Statistics stats.old }
    ensures { (length block.new ≡ area p) × Statistics stats.new × SaysBlock p list bytes.now x contexts.old stats.old result contexts.new block.new stats.new }
{
    let Headed { head, next } = read_head(list, table, contexts, bytes, p, x)?;
    let mut coded = [false; 64];
    let n = grid(p.log2);
    let carried = sub_blocks(
        list,
        table,
        contexts,
        bytes,
        &mut coded[..n],
        block,
        stats,
        p,
        head,
        next,
    )?;
    let told = told_of(block, p, carried.stored);
    let column = carried.carry.column;
    Ok(Blocked {
        found: found_of(head, column, told.row, told.greatest),
        next: carried.next,
    })
}
