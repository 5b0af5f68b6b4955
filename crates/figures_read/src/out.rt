// Figures read out, place by place and number by number.
ghost use Rattle.std.specs.Prelude.{◌≡◌, List, ℕ};
ghost use Rattle.figures.specs.Entries.{place_refusal, place_of, tally_of};
ghost use Rattle.figures.specs.Agree.{held};

use figures::add::Totals;
use figures::out::{PlaceFigures, TallyFigure};
use figures_add::add::number_refusal;
use hevc_sizes::sizes::area_of;

// 4
fn place_refusal(t: Totals, place: usize) -> u32
    ensures { result ≡ place_refusal t place }
{
    if t.log2 < 2 {
        return 4;
    }
    if 5 < t.log2 {
        return 4;
    }
    let n = area_of(t.log2);
    if n <= place {
        return 4;
    }
    0
}

pub fn at_place(
    blocks: &[u32; 1024],
    sums: &[u64; 1024],
    greatests: &[u32; 1024],
    totals: Totals,
    place: usize,
) -> PlaceFigures
    ensures { (tallies : List ℕ) → result ≡ place_of (held totals blocks.now sums.now greatests.now tallies) place }
{
    let n = place_refusal(totals, place);
    if n != 0 {
        return PlaceFigures {
            number: n,
            blocks: 0,
            greatest: 0,
            sum: 0,
        };
    }
    let b = blocks[place];
    let g = greatests[place];
    let s = sums[place];
    PlaceFigures {
        number: 0,
        blocks: b,
        greatest: g,
        sum: s,
    }
}

pub fn tally_of(tallies: &[u32; 24], totals: Totals, number: u32) -> TallyFigure
    ensures { (blocks sums greatests : List ℕ) → result ≡ tally_of (held totals blocks sums greatests tallies.now) number }
{
    let n = number_refusal(number);
    if n != 0 {
        return TallyFigure {
            number: n,
            count: 0,
        };
    }
    let at = (number - 1) as usize;
    let t = tallies[at];
    TallyFigure {
        number: 0,
        count: t,
    }
}
