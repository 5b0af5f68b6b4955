// The whole block: its significant places, then their levels.
ghost use Rattle.std.specs.Prelude.{◌≡◌, ◌≤◌, length, replicate, pos};
ghost use Rattle.tables.specs.Decisions.{decisions};
ghost use Rattle.trees.specs.Agree.{Reads};
ghost use Rattle.h264_block.specs.Entries.{block_with, cleared};
ghost use Rattle.h264_block.specs.BlockAgree.{SaysBlock, SaysInto};

use bins::state::{Interval, Step, Taken};
use h264_levels::levels::levels;
use h264_places::places::places;
use level_sizes::sizes::greatest;
use tables::decision_table;

// Into places that are zero.
fn read_block(
    list: bool,
    table: &[u32; 512],
    contexts: &mut [u8; 40],
    block: &mut [i32; 16],
    bytes: &[u8],
    x: Interval,
) -> Step
    requires { Reads list bytes.now x contexts.old × (block.old ≡ replicate 16 (pos 0)) × (table.now ≡ decisions) }
    ensures { SaysBlock result list bytes.now x contexts.old contexts.new block.new }
{
    let mut marks = [false; 16];
    let Taken { next, .. } = places(list, table, contexts, &mut marks, bytes, x)?;
    levels(list, table, contexts, &marks, block, bytes, next)
}

// Sixteen levels to the front of a block.
pub fn copy(block: &mut [i32], levels: &[i32; 16])
    requires { (16 ≤ length block.old) × (length levels.now ≡ 16) }
    ensures { block.new ≡ block_with levels.now block.old }
{
    block[..16].copy_from_slice(levels);
}

// The front of a block, without levels.
pub(crate) fn clear(block: &mut [i32])
    requires { 16 ≤ length block.old }
    ensures { block.new ≡ cleared block.old }
{
    block[..16].fill(0);
}

// A block to the front of a lent one, and its greatest magnitude. Contexts are copied, and stored again only where the block is accepted; a refused block is zero.
pub fn read_into(
    list: bool,
    contexts: &mut [u8; 40],
    bytes: &[u8],
    block: &mut [i32],
    x: Interval,
) -> Step
    requires { Reads list bytes.now x contexts.old × (16 ≤ length block.old) }
    ensures { SaysInto result list bytes.now x contexts.old contexts.new block.old block.new }
{
    let table = decision_table();
    let mut cs = *contexts;
    let mut levels = [0i32; 16];
    match read_block(list, &table, &mut cs, &mut levels, bytes, x) {
        Ok(Taken { next, .. }) => {
            copy(block, &levels);
            *contexts = cs;
            Ok(Taken {
                value: greatest(&levels),
                next,
            })
        }
        Err(r) => {
            clear(block);
            Err(r)
        }
    }
}
