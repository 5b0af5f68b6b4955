// A kept block changed: a level set, all cleared, copied in, counted again.
ghost use Rattle.hevc_summary.specs.Agree.{kept_of, after_of, SetSays};
ghost use Rattle.std.specs.Prelude.{◌≡◌};
ghost use Rattle.hevc_summary.specs.Summary.{Keeps};
ghost use Rattle.hevc_summary.specs.Entries as entries;

use hevc_summary::kept::{Changed, Form, Whole};

// One level.
#[unsafe(no_mangle)]
pub extern "C" fn bulmegart_set_level(
    levels: &mut [i32],
    counts: &mut [u32; 64],
    sums: &mut [u64; 64],
    form: Form,
    whole: Whole,
    place: usize,
    level: i32,
) -> Changed
    ensures { SetSays form place level (kept_of levels.old counts.old sums.old whole) (after_of result levels.new counts.new sums.new) }
{
    bulmegart_kept::changes::bulmegart_set_level(levels, counts, sums, form, whole, place, level)
}

// All levels zero.
#[unsafe(no_mangle)]
pub extern "C" fn bulmegart_clear_kept(
    levels: &mut [i32],
    counts: &mut [u32; 64],
    sums: &mut [u64; 64],
    form: Form,
    whole: Whole,
) -> Changed
    ensures { (after_of result levels.new counts.new sums.new ≡ entries.clear form (kept_of levels.old counts.old sums.old whole)) × Keeps form.log2 (result.number ≡ 0) (kept_of levels.old counts.old sums.old whole) (kept_of levels.new counts.new sums.new result.whole) }
{
    bulmegart_kept::changes::bulmegart_clear_kept(levels, counts, sums, form, whole)
}

// Another block of the same size and range.
#[unsafe(no_mangle)]
pub extern "C" fn bulmegart_copy_in(
    levels: &mut [i32],
    counts: &mut [u32; 64],
    sums: &mut [u64; 64],
    form: Form,
    whole: Whole,
    other: Form,
    from: &[i32],
) -> Changed
    ensures { (after_of result levels.new counts.new sums.new ≡ entries.copy_in form other from.now (kept_of levels.old counts.old sums.old whole)) × Keeps form.log2 (result.number ≡ 0) (kept_of levels.old counts.old sums.old whole) (kept_of levels.new counts.new sums.new result.whole) }
{
    bulmegart_kept::changes::bulmegart_copy_in(levels, counts, sums, form, whole, other, from)
}

// A fresh count of the levels that stand there.
#[unsafe(no_mangle)]
pub extern "C" fn bulmegart_recount(
    levels: &[i32],
    counts: &mut [u32; 64],
    sums: &mut [u64; 64],
    form: Form,
    whole: Whole,
) -> Changed
    ensures { (after_of result levels.now counts.new sums.new ≡ entries.recount form (kept_of levels.now counts.old sums.old whole)) × Keeps form.log2 (result.number ≡ 0) (kept_of levels.now counts.old sums.old whole) (kept_of levels.now counts.new sums.new result.whole) }
{
    bulmegart_kept::changes::bulmegart_recount(levels, counts, sums, form, whole)
}
