// Figures of four sizes before anything is added.
ghost use Rattle.std.specs.Prelude.{◌≡◌, ◌≤◌};
ghost use Rattle.figures.specs.Entries.{begun};
ghost use Rattle.figures.specs.Agree.{held};
ghost use Rattle.morning_add.specs.Sums.{no_sums};
ghost use Rattle.morning_add.specs.Agree.{four_of};

use crate::adding::{One, Sizes};
use figures::add::Totals;
use figures_read::begin::begin;

fn begin_size(
    blocks: &mut [u32; 1024],
    sums: &mut [u64; 1024],
    greatests: &mut [u32; 1024],
    tallies: &mut [u32; 24],
    log2: u32,
) -> Totals
    requires { (2 ≤ log2) × (log2 ≤ 5) }
    ensures { held result blocks.new sums.new greatests.new tallies.new ≡ begun log2 }
{
    let none = Totals {
        log2,
        accepted: 0,
        past: 0,
    };
    let a = begin(blocks, sums, greatests, tallies, none, log2);
    a.totals
}

// All zero, whatever stood there. The arrays are apart as in `adding::add_event`.
pub fn begin_book(
    blocks4: &mut [u32; 1024],
    sums4: &mut [u64; 1024],
    greatests4: &mut [u32; 1024],
    blocks8: &mut [u32; 1024],
    sums8: &mut [u64; 1024],
    greatests8: &mut [u32; 1024],
    blocks16: &mut [u32; 1024],
    sums16: &mut [u64; 1024],
    greatests16: &mut [u32; 1024],
    blocks32: &mut [u32; 1024],
    sums32: &mut [u64; 1024],
    greatests32: &mut [u32; 1024],
    tallies: &mut [u32; 24],
) -> Sizes
    ensures { four_of result blocks4.new sums4.new greatests4.new blocks8.new sums8.new greatests8.new blocks16.new sums16.new greatests16.new blocks32.new sums32.new greatests32.new tallies.new ≡ no_sums }
{
    let a = begin_size(blocks4, sums4, greatests4, tallies, 2);
    let b = begin_size(blocks8, sums8, greatests8, tallies, 3);
    let c = begin_size(blocks16, sums16, greatests16, tallies, 4);
    let d = begin_size(blocks32, sums32, greatests32, tallies, 5);
    let of4 = One {
        totals: a,
        full: false,
    };
    let of8 = One {
        totals: b,
        full: false,
    };
    let of16 = One {
        totals: c,
        full: false,
    };
    let of32 = One {
        totals: d,
        full: false,
    };
    Sizes {
        of4,
        of8,
        of16,
        of32,
    }
}
