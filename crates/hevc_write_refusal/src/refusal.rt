// What a writer refuses of a block, in document 01's order: 9, 10, 8, 11. Each is looked for over all n·n places.
ghost use Rattle.std.specs.Prelude.{◌≡◌, not, ◌&&◌, ◌||◌, ℕ, ◌-◌, ◌^◌, ◌≤◌, ◌<◌, ℤ, nat_abs, length, get_or};
ghost use Rattle.std.specs.Bool.{beq};
ghost use Rattle.hevc_residual.specs.Wanted.{Wanted, area, negative, outer_of, inner_of, sig_places};
ghost use Rattle.hevc_residual.specs.Head.{rdpcm_flag, skip_coded, rdpcm_coded};
ghost use Rattle.hevc_residual.specs.Remainder.{in_range};
ghost use Rattle.hevc_residual.specs.Refusal.{all_zero, too_far, disagrees, any_disagrees, write_refusal};
ghost use Rattle.hevc_residual.specs.Scan.{spot};
ghost use Rattle.hevc_scans.specs.Pairs.{pairs_of, Orders};
ghost use Rattle.hevc_places.specs.Packing.{Packs};
ghost use Rattle.hevc_residual.specs.Limits.{Accepted};
ghost use Rattle.hevc_wanted.specs.Shown.{Shows};
ghost use Rattle.hevc_write_refusal.specs.RefusalAgree.{Chosen, Handed, lowest_of, sign_off, disagrees_in, reach_of};

use hevc_coeff_rules::coeffs::hidden;
use hevc_head_rules::head::{Head, rdpcm_coded, skip_coded};
use hevc_magnitudes::magnitudes::{in_range, range_bits};
use hevc_places::places::Places;
use hevc_residual::params::{Params, Rdpcm};
use hevc_scans::orders::{inner_order, outer_order};
use hevc_sizes::sizes::grid;
use hevc_wanted::sub::{corner_at, is_bare, levels_of, places_of, sum_of};
use level_sizes::sizes::{is_negative, magnitude};

// 9: all levels are zero.
fn all_zero(block: &[i32]) -> bool
    ensures { result ≡ all_zero block.now }
{
    block.iter().all(|level| magnitude(*level) == 0)
}

fn is_set(r: Rdpcm) -> bool
    ensures { result ≡ rdpcm_flag r }
{
    match r {
        Rdpcm::None => false,
        Rdpcm::Horizontal => true,
        Rdpcm::Vertical => true,
    }
}

// 10: skip or RDPCM is set where it isn't coded.
fn not_coded(p: Params, skip: bool, rdpcm: Rdpcm) -> bool
    ensures { result ≡ ((skip && not (skip_coded p)) || (rdpcm_flag rdpcm && not (rdpcm_coded p skip))) }
{
    (skip && !skip_coded(p)) || (is_set(rdpcm) && !rdpcm_coded(p, skip))
}

// A level lies outside the coefficient range, as the smallest i32 does in every range.
pub fn is_far(t: u32, v: i32) -> bool
    requires { t ≤ 22 }
    ensures { result ≡ not (in_range t (negative v) (nat_abs v)) }
{
    !in_range(t, is_negative(v), magnitude(v))
}

// How far a level reaches: one that is negative has a place more.
fn reach(v: i32) -> u32
    ensures { result ≡ reach_of v }
{
    let m = magnitude(v);
    if is_negative(v) { m - 1 } else { m }
}

// 8: a level is outside the coefficient range. All are looked at, several at a time, and none ends the look.
fn too_far(t: u32, block: &[i32]) -> bool
    requires { t ≤ 22 }
    ensures { result ≡ too_far t block.now }
{
    let mut most: u32 = 0;
    for level in block {
        most = most.max(reach(*level));
    }
    1 << t <= most
}

// The lowest of the places.
fn lowest(s: Places) -> usize
    requires { Packs s × (0 < s.count) }
    ensures { (result ≡ lowest_of s) × (result < 16) }
{
    ((s.packed >> (4 * (s.count - 1))) % 16) as usize
}

// The sign at the lowest of the places is not the parity of the sum.
fn sign_off(levels: &[i32; 16], s: Places) -> bool
    requires { Packs s × (0 < s.count) }
    ensures { result ≡ sign_off levels.now s }
{
    let low = lowest(s);
    let sign = is_negative(levels[low]);
    sign != (sum_of(levels) % 2 == 1)
}

// 11 in one sub-block: its hidden sign disagrees with its parity.
fn disagrees(p: Params, h: Head, levels: &[i32; 16]) -> bool
    ensures { (lv : ℕ → Wanted → ℤ) (w : Wanted) → Chosen h w → Shows lv w levels.now → result ≡ disagrees p w lv (sig_places lv w) }
{
    let s = places_of(levels);
    if s.count == 0 {
        return false;
    }
    if hidden(p, h, s) == 0 {
        return false;
    }
    sign_off(levels, s)
}

// 11 in sub-block i of the scan.
pub fn disagrees_at(
    block: &[i32],
    order: &[[u8; 2]; 16],
    outer: &[[u8; 2]; 64],
    p: Params,
    h: Head,
    i: usize,
) -> bool
    requires { (order.now ≡ pairs_of (inner_of p)) × Orders (4 ^ (p.log2 - 2)) (outer_of p) outer.now × Accepted p × (length block.now ≡ area p) × (i < 4 ^ (p.log2 - 2)) }
    ensures { (w : Wanted) → Handed h block.now w → result ≡ disagrees_in p w (get_or (outer_of p) i (spot 0 0)) }
{
    let c = corner_at(outer, p, i);
    if is_bare(block, p, c.xs, c.ys) {
        return false;
    }
    let levels = levels_of(block, order, p, c.xs, c.ys);
    disagrees(p, h, &levels)
}

// 11: in one of the sub-blocks.
fn any_disagrees(block: &[i32], p: Params, h: Head) -> bool
    requires { Accepted p × (length block.now ≡ area p) }
    ensures { (w : Wanted) → Handed h block.now w → result ≡ any_disagrees p w (inner_of p) (outer_of p) }
{
    if !p.hiding {
        return false;
    }
    let order = inner_order(p.scan);
    let outer = outer_order(p.log2, p.scan);
    for i in 0..grid(p.log2) {
        if disagrees_at(block, &order, &outer, p, h, i) {
            return true;
        }
    }
    false
}

// 0 if nothing is refused.
pub fn write_refusal(p: Params, block: &[i32], skip: bool, rdpcm: Rdpcm) -> u32
    requires { Accepted p × (length block.now ≡ area p) }
    ensures { result ≡ write_refusal p (record { skip = skip; rdpcm = rdpcm; levels = block.now }) }
{
    if all_zero(block) {
        return 9;
    }
    if not_coded(p, skip, rdpcm) {
        return 10;
    }
    if too_far(range_bits(p), block) {
        return 8;
    }
    let h = Head {
        skip,
        rdpcm,
        x: 0,
        y: 0,
    };
    if any_disagrees(block, p, h) {
        return 11;
    }
    0
}
