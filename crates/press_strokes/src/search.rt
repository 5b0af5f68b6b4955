// The first place, sub-block or change of which a test holds; as many as there are, where it holds of none.
ghost use Rattle.std.specs.Prelude.{◌≡◌, ◌-◌, ◌*◌, ◌^◌, ◌≤◌, ◌<◌, pos, length, set, get_or, take};
ghost use Rattle.hevc_scans.specs.Pairs.{pairs_of, Orders};
ghost use Rattle.hevc_residual.specs.Wanted.{area, inner_of, outer_of};
ghost use Rattle.hevc_residual.specs.Limits.{Accepted};
ghost use Rattle.hevc_residual.specs.Refusal.{write_refusal};
ghost use Rattle.press_strokes.specs.Advice.{First, is_beyond, drawn, is_far_by, is_off_in, accepts, is_taken};

use crate::strokes::{magnitude_at, stroke_at};
use hevc_head_rules::head::Head;
use hevc_residual::params::{Params, Rdpcm};
use hevc_scans::orders::{inner_order, outer_order};
use hevc_sizes::sizes::{area_of, grid};
use hevc_write_refusal::refusal::{disagrees_at, is_far, write_refusal};

fn far_at(t: u32, levels: &[i32; 1024], i: usize) -> bool
    requires { (t ≤ 22) × (i < 1024) }
    ensures { result ≡ is_beyond t (get_or levels.now i (pos 0)) }
{
    is_far(t, levels[i])
}

// The first of n levels that is out of range, row by row.
pub fn first_far(t: u32, n: usize, levels: &[i32; 1024]) -> usize
    requires { (t ≤ 22) × (n ≤ 1024) }
    ensures { First (is_far_by t levels.now) n result }
{
    for i in 0..n {
        if far_at(t, levels, i) {
            return i;
        }
    }
    n
}

fn off_at(p: Params, levels: &[i32], order: &[[u8; 2]; 16], outer: &[[u8; 2]; 64], i: usize) -> bool
    requires { (order.now ≡ pairs_of (inner_of p)) × Orders (4 ^ (p.log2 - 2)) (outer_of p) outer.now × Accepted p × (length levels.now ≡ area p) × (i < 4 ^ (p.log2 - 2)) }
    ensures { result ≡ is_off_in p levels.now i }
{
    let h = Head {
        skip: false,
        rdpcm: Rdpcm::None,
        x: 0,
        y: 0,
    };
    disagrees_at(levels, order, outer, p, h, i)
}

// The first sub-block whose hidden sign disagrees, in the order of the scan.
pub fn first_off(p: Params, block: &[i32]) -> usize
    requires { Accepted p × (length block.now ≡ area p) }
    ensures { First (is_off_in p block.now) (4 ^ (p.log2 - 2)) result }
{
    let order = inner_order(p.scan);
    let outer = outer_order(p.log2, p.scan);
    let n = grid(p.log2);
    for i in 0..n {
        if off_at(p, block, &order, &outer, i) {
            return i;
        }
    }
    n
}

// The writer's number for the levels: 9, 8, 11, or 0.
pub fn refusal(p: Params, levels: &[i32; 1024]) -> u32
    requires { Accepted p × (area p ≤ length levels.now) }
    ensures { result ≡ write_refusal p (drawn (take (area p) levels.now)) }
{
    let all = *levels;
    write_refusal(p, &all[..area_of(p.log2)], false, Rdpcm::None)
}

// Whether the writer takes the levels with another one at a place.
fn takes(p: Params, levels: &[i32; 1024], i: usize, v: i32) -> bool
    requires { Accepted p × (i < 1024) × (area p ≤ length levels.now) }
    ensures { result ≡ accepts p (set levels.now i v) }
{
    let mut other = *levels;
    other[i] = v;
    refusal(p, &other) == 0
}

// Change c is stroke c % 3 of the level at place c / 3.
fn is_taken(p: Params, levels: &[i32; 1024], c: usize) -> bool
    requires { Accepted p × (c < 3 * area p) × (area p ≤ length levels.now) }
    ensures { result ≡ is_taken p levels.now c }
{
    let i = c / 3;
    let m = magnitude_at(levels, i);
    if m == 0 {
        return false;
    }
    if 4194303 < m {
        return false;
    }
    takes(p, levels, i, stroke_at(levels, i, c % 3))
}

// The first change that the writer takes.
pub fn first_taken(p: Params, levels: &[i32; 1024]) -> usize
    requires { Accepted p × (area p ≤ length levels.now) }
    ensures { First (is_taken p levels.now) (3 * area p) result }
{
    let n = 3 * area_of(p.log2);
    for c in 0..n {
        if is_taken(p, levels, c) {
            return c;
        }
    }
    n
}
