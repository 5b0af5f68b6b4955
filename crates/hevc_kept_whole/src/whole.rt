// A kept block changed as a whole: n·n levels, with a record for each 4x4 sub-block (counts and sums) and one for the whole.
ghost use Rattle.std.specs.Prelude.{◌≡◌, ◌≤◌, length};
ghost use Rattle.hevc_summary.specs.Summary.{Keeps};
ghost use Rattle.hevc_summary.specs.Entries.{zeros, copied, recount, clear, copy_refusal, copy_in};
ghost use Rattle.hevc_summary.specs.Agree.{kept_of, after_of};

use hevc_counts::counts::{count_all, form_refusal};
use hevc_sizes::sizes::area_of;
use hevc_summary::kept::{Changed, Form, Whole};

// A fresh count of the levels that stand there.
pub fn recount(
    levels: &[i32],
    counts: &mut [u32; 64],
    sums: &mut [u64; 64],
    f: Form,
    whole: Whole,
) -> Changed
    ensures { (after_of result levels.now counts.new sums.new ≡ recount f (kept_of levels.now counts.old sums.old whole)) × Keeps f.log2 (result.number ≡ 0) (kept_of levels.now counts.old sums.old whole) (kept_of levels.now counts.new sums.new result.whole) }
{
    let n = form_refusal(f, levels);
    if n != 0 {
        return Changed { number: n, whole };
    }
    let after = count_all(levels, counts, sums, f.log2);
    Changed {
        number: 0,
        whole: after,
    }
}

fn zero(levels: &mut [i32], n: usize)
    requires { n ≤ length levels.old }
    ensures { levels.new ≡ zeros n levels.old }
{
    levels[..n].fill(0);
}

// All levels zero.
pub fn clear(
    levels: &mut [i32],
    counts: &mut [u32; 64],
    sums: &mut [u64; 64],
    f: Form,
    whole: Whole,
) -> Changed
    ensures { (after_of result levels.new counts.new sums.new ≡ clear f (kept_of levels.old counts.old sums.old whole)) × Keeps f.log2 (result.number ≡ 0) (kept_of levels.old counts.old sums.old whole) (kept_of levels.new counts.new sums.new result.whole) }
{
    let n = form_refusal(f, levels);
    if n != 0 {
        return Changed { number: n, whole };
    }
    zero(levels, area_of(f.log2));
    let after = count_all(levels, counts, sums, f.log2);
    Changed {
        number: 0,
        whole: after,
    }
}

fn copy(levels: &mut [i32], from: &[i32], n: usize)
    requires { (n ≤ length levels.old) × (n ≤ length from.now) }
    ensures { levels.new ≡ copied n from.now levels.old }
{
    levels[..n].copy_from_slice(&from[..n]);
}

// 4
fn copy_refusal(f: Form, g: Form, from: &[i32], levels: &[i32]) -> u32
    ensures { result ≡ copy_refusal f g from.now levels.now }
{
    let n = form_refusal(f, levels);
    if n != 0 {
        return n;
    }
    let m = form_refusal(g, from);
    if m != 0 {
        return m;
    }
    if f.log2 != g.log2 {
        return 4;
    }
    if f.bits != g.bits {
        return 4;
    }
    0
}

// Another block of the same size and range.
pub fn copy_in(
    levels: &mut [i32],
    counts: &mut [u32; 64],
    sums: &mut [u64; 64],
    f: Form,
    whole: Whole,
    g: Form,
    from: &[i32],
) -> Changed
    ensures { (after_of result levels.new counts.new sums.new ≡ copy_in f g from.now (kept_of levels.old counts.old sums.old whole)) × Keeps f.log2 (result.number ≡ 0) (kept_of levels.old counts.old sums.old whole) (kept_of levels.new counts.new sums.new result.whole) }
{
    let n = copy_refusal(f, g, from, levels);
    if n != 0 {
        return Changed { number: n, whole };
    }
    copy(levels, from, area_of(f.log2));
    let after = count_all(levels, counts, sums, f.log2);
    Changed {
        number: 0,
        whole: after,
    }
}
