// What a line adds to the figures of a size, and to those of all four. Blocks of another size change nothing there.
ghost use Rattle.std.specs.Prelude.{◌≡◌, List, ℕ};
ghost use Rattle.figures.specs.Figures.{block};
ghost use Rattle.morning_add.specs.Sums.{plus, four_plus};
ghost use Rattle.morning_add.specs.Agree.{event_of, sum_of, four_of};

use crate::event::{BlockRead, LineRead};
use figures::add::Totals;
use figures_add::add::{add_block, add_refusal};

// Of one size: the totals, and whether a block was left out since 4,096 were there.
#[derive(Clone, Copy)]
pub struct One {
    pub totals: Totals,
    pub full: bool,
}

// Of all four.
#[derive(Clone, Copy)]
pub struct Sizes {
    pub of4: One,
    pub of8: One,
    pub of16: One,
    pub of32: One,
}

fn add_to(
    blocks: &mut [u32; 1024],
    sums: &mut [u64; 1024],
    greatests: &mut [u32; 1024],
    one: One,
    log2: u32,
    levels: &[i32],
    past: u32,
) -> One
    ensures { (tallies : List ℕ) → sum_of result blocks.new sums.new greatests.new tallies ≡ plus (sum_of one blocks.old sums.old greatests.old tallies) (block log2 levels.now past) }
{
    let was_full = one.full;
    let a = add_block(blocks, sums, greatests, one.totals, log2, levels, past);
    let totals = a.totals;
    if a.number == 23 {
        return One { totals, full: true };
    }
    One {
        totals,
        full: was_full,
    }
}

// What a line gave, and the levels of its block. Three lent arrays for each of four sizes, and the tallies, are parameters one by one: each function over a struct that held them would be walked by hand.
pub fn add_event(
    e: LineRead,
    levels: &[i32; 1024],
    z: Sizes,
    blocks4: &mut [u32; 1024],
    sums4: &mut [u64; 1024],
    greatests4: &mut [u32; 1024],
    blocks8: &mut [u32; 1024],
    sums8: &mut [u64; 1024],
    greatests8: &mut [u32; 1024],
    blocks16: &mut [u32; 1024],
    sums16: &mut [u64; 1024],
    greatests16: &mut [u32; 1024],
    blocks32: &mut [u32; 1024],
    sums32: &mut [u64; 1024],
    greatests32: &mut [u32; 1024],
    tallies: &mut [u32; 24],
) -> Sizes
    ensures { four_of result blocks4.new sums4.new greatests4.new blocks8.new sums8.new greatests8.new blocks16.new sums16.new greatests16.new blocks32.new sums32.new greatests32.new tallies.new ≡ four_plus (four_of z blocks4.old sums4.old greatests4.old blocks8.old sums8.old greatests8.old blocks16.old sums16.old greatests16.old blocks32.old sums32.old greatests32.old tallies.old) (event_of e levels.now) }
{
    match e {
        Ok(BlockRead { log2, past }) => {
            let a = add_to(blocks4, sums4, greatests4, z.of4, log2, levels, past);
            let b = add_to(blocks8, sums8, greatests8, z.of8, log2, levels, past);
            let c = add_to(blocks16, sums16, greatests16, z.of16, log2, levels, past);
            let d = add_to(blocks32, sums32, greatests32, z.of32, log2, levels, past);
            Sizes {
                of4: a,
                of8: b,
                of16: c,
                of32: d,
            }
        }
        Err(n) => {
            add_refusal(tallies, z.of4.totals, n);
            z
        }
    }
}
