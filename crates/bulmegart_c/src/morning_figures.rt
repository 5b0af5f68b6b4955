// The morning figures: lent as three arrays of 1,024 (one number for each place), 24 tallies and the totals.
ghost use Rattle.std.specs.Prelude.{◌≡◌, List, ℕ};
ghost use Rattle.figures.specs.Agree.{held, after_of};
ghost use Rattle.figures.specs.Entries as entries;

use figures::add::{Added, Totals};
use figures::out::{PlaceFigures, TallyFigure};

// Of one size, before anything is added.
#[unsafe(no_mangle)]
pub extern "C" fn bulmegart_begin_figures(
    blocks: &mut [u32; 1024],
    sums: &mut [u64; 1024],
    greatests: &mut [u32; 1024],
    tallies: &mut [u32; 24],
    totals: Totals,
    log2: u32,
) -> Added
    ensures { after_of result blocks.new sums.new greatests.new tallies.new ≡ entries.begin (held totals blocks.old sums.old greatests.old tallies.old) log2 }
{
    bulmegart_figures::bulmegart_begin_figures(blocks, sums, greatests, tallies, totals, log2)
}

// An accepted block, with its total past the end.
#[unsafe(no_mangle)]
pub extern "C" fn bulmegart_add_block(
    blocks: &mut [u32; 1024],
    sums: &mut [u64; 1024],
    greatests: &mut [u32; 1024],
    totals: Totals,
    log2: u32,
    levels: &[i32],
    past: u32,
) -> Added
    ensures { (tallies : List ℕ) → after_of result blocks.new sums.new greatests.new tallies ≡ entries.add_block (held totals blocks.old sums.old greatests.old tallies) log2 levels.now past }
{
    bulmegart_figures::bulmegart_add_block(blocks, sums, greatests, totals, log2, levels, past)
}

// The number of a refused block.
#[unsafe(no_mangle)]
pub extern "C" fn bulmegart_add_refusal(
    tallies: &mut [u32; 24],
    totals: Totals,
    number: u32,
) -> Added
    ensures { (blocks sums greatests : List ℕ) → after_of result blocks sums greatests tallies.new ≡ entries.add_refusal (held totals blocks sums greatests tallies.old) number }
{
    bulmegart_figures::bulmegart_add_refusal(tallies, totals, number)
}

// Other figures of the same size.
#[unsafe(no_mangle)]
pub extern "C" fn bulmegart_merge_figures(
    blocks: &mut [u32; 1024],
    sums: &mut [u64; 1024],
    greatests: &mut [u32; 1024],
    tallies: &mut [u32; 24],
    totals: Totals,
    other_blocks: &[u32; 1024],
    other_sums: &[u64; 1024],
    other_greatests: &[u32; 1024],
    other_tallies: &[u32; 24],
    other: Totals,
) -> Added
    ensures { after_of result blocks.new sums.new greatests.new tallies.new ≡ entries.merge (held totals blocks.old sums.old greatests.old tallies.old) (held other other_blocks.now other_sums.now other_greatests.now other_tallies.now) }
{
    bulmegart_figures::bulmegart_merge_figures(
        blocks,
        sums,
        greatests,
        tallies,
        totals,
        other_blocks,
        other_sums,
        other_greatests,
        other_tallies,
        other,
    )
}

// What stands at a place.
#[unsafe(no_mangle)]
pub extern "C" fn bulmegart_at_place(
    blocks: &[u32; 1024],
    sums: &[u64; 1024],
    greatests: &[u32; 1024],
    totals: Totals,
    place: usize,
) -> PlaceFigures
    ensures { (tallies : List ℕ) → result ≡ entries.place_of (held totals blocks.now sums.now greatests.now tallies) place }
{
    bulmegart_figures::bulmegart_at_place(blocks, sums, greatests, totals, place)
}

// The tally of a number.
#[unsafe(no_mangle)]
pub extern "C" fn bulmegart_tally_of(
    tallies: &[u32; 24],
    totals: Totals,
    number: u32,
) -> TallyFigure
    ensures { (blocks sums greatests : List ℕ) → result ≡ entries.tally_of (held totals blocks sums greatests tallies.now) number }
{
    bulmegart_figures::bulmegart_tally_of(tallies, totals, number)
}
