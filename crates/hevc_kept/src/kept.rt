// One level of a kept block: n·n levels, with a record for each 4x4 sub-block (counts and sums) and one for the whole.
ghost use Rattle.std.specs.Prelude.{◌≡◌, ◌≤◌};
ghost use Rattle.hevc_summary.specs.Entries.{level_refusal};
ghost use Rattle.hevc_summary.specs.Agree.{kept_of, after_of, SetSays};

use hevc_counts::counts::{count_in, form_refusal, sub_of, whole_of};
use hevc_magnitudes::magnitudes::in_range;
use hevc_sizes::sizes::area_of;
use hevc_summary::kept::{Changed, Form, Whole};
use level_sizes::sizes::{is_negative, magnitude};

// 8
fn level_refusal(f: Form, v: i32) -> u32
    requires { f.bits ≤ 22 }
    ensures { result ≡ level_refusal f v }
{
    if in_range(f.bits, is_negative(v), magnitude(v)) {
        0
    } else {
        8
    }
}

// One level.
pub fn set_level(
    levels: &mut [i32],
    counts: &mut [u32; 64],
    sums: &mut [u64; 64],
    f: Form,
    whole: Whole,
    place: usize,
    v: i32,
) -> Changed
    ensures { SetSays f place v (kept_of levels.old counts.old sums.old whole) (after_of result levels.new counts.new sums.new) }
{
    let n = form_refusal(f, levels);
    if n != 0 {
        return Changed { number: n, whole };
    }
    if area_of(f.log2) <= place {
        return Changed { number: 4, whole };
    }
    let m = level_refusal(f, v);
    if m != 0 {
        return Changed { number: m, whole };
    }
    levels[place] = v;
    let sub = sub_of(f.log2, place);
    let t = count_in(levels, f.log2, sub);
    counts[sub] = t.count;
    sums[sub] = t.sum;
    let made = whole_of(counts, sums, f.log2);
    Changed {
        number: 0,
        whole: made,
    }
}
