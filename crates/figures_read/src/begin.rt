// Figures of one size before anything is added.
ghost use Rattle.std.specs.Prelude.{◌≡◌};
ghost use Rattle.figures.specs.Entries.{begin_refusal, begin};
ghost use Rattle.figures.specs.Agree.{held, after_of};

use figures::add::{Added, Totals};

// 4
fn begin_refusal(log2: u32) -> u32
    ensures { result ≡ begin_refusal log2 }
{
    if log2 < 2 {
        return 4;
    }
    if 5 < log2 {
        return 4;
    }
    0
}

// All zero, whatever stood there.
pub fn begin(
    blocks: &mut [u32; 1024],
    sums: &mut [u64; 1024],
    greatests: &mut [u32; 1024],
    tallies: &mut [u32; 24],
    totals: Totals,
    log2: u32,
) -> Added
    ensures { after_of result blocks.new sums.new greatests.new tallies.new ≡ begin (held totals blocks.old sums.old greatests.old tallies.old) log2 }
{
    let number = begin_refusal(log2);
    if number != 0 {
        return Added { number, totals };
    }
    *blocks = [0u32; 1024];
    *sums = [0u64; 1024];
    *greatests = [0u32; 1024];
    *tallies = [0u32; 24];
    let none = Totals {
        log2,
        accepted: 0,
        past: 0,
    };
    Added {
        number: 0,
        totals: none,
    }
}
