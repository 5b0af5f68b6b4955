// One sub-block of the block: its 16 levels in the order of its scan, which places have one, and what they come to.
ghost use Rattle.std.specs.Prelude.{◌≡◌, ◌+◌, ◌-◌, ◌^◌, ◌≤◌, ◌<◌, pos, nat_abs, ltb, length, get_or};
ghost use Rattle.bins.specs.Engine.{bit_no};
ghost use Rattle.hevc_residual.specs.Wanted.{Wanted, area, outer_of, inner_of, wanted_in, down_from, sig_places, cell_of, spot_in, none};
ghost use Rattle.hevc_residual.specs.Scan.{spot};
ghost use Rattle.hevc_scans.specs.Pairs.{pairs_of, Orders};
ghost use Rattle.hevc_rules.specs.LevelsAgree.{Site};
ghost use Rattle.hevc_places.specs.Packing.{Packs, unpacked};
ghost use Rattle.hevc_residual.specs.Limits.{Accepted};
ghost use Rattle.hevc_wanted.specs.Shown.{Shows, is_level, sum_below, size_at, row_most, row_at};

use hevc_level_rules::levels::cell_of;
use hevc_places::places::{Places, appended};
use hevc_residual::params::Params;
use level_sizes::sizes::magnitude;

// A sub-block by its column and row.
#[derive(Clone, Copy)]
pub struct Corner {
    pub xs: u32,
    pub ys: u32,
}

// Sub-block i of the scan.
pub fn corner_at(outer: &[[u8; 2]; 64], p: Params, i: usize) -> Corner
    requires { Orders (4 ^ (p.log2 - 2)) (outer_of p) outer.now × Accepted p × (i < 4 ^ (p.log2 - 2)) }
    ensures { Site p result.xs result.ys × (get_or (outer_of p) i (spot 0 0) ≡ spot result.xs result.ys) }
{
    let xs = outer[i][0] as u32;
    let ys = outer[i][1] as u32;
    Corner { xs, ys }
}

// The level at place k of the scan.
fn level_at(block: &[i32], order: &[[u8; 2]; 16], p: Params, xs: u32, ys: u32, k: usize) -> i32
    requires { (order.now ≡ pairs_of (inner_of p)) × Site p xs ys × (length block.now ≡ area p) × (k < 16) }
    ensures { result ≡ get_or block.now (cell_of p (spot_in (inner_of p) (spot xs ys) k)) (pos 0) }
{
    let c = cell_of(order, p, xs, ys, k);
    let at = c.at;
    block[at]
}

// The magnitude in a cell.
fn size_at(block: &[i32], at: usize) -> u32
    requires { at < length block.now }
    ensures { result ≡ size_at block.now at }
{
    magnitude(block[at])
}

// The greatest magnitude of the four levels from cell `at` on.
fn row_most(block: &[i32], at: usize) -> u32
    requires { at + 4 ≤ length block.now }
    ensures { result ≡ row_most block.now at }
{
    let a = size_at(block, at).max(size_at(block, at + 1));
    let b = size_at(block, at + 2).max(size_at(block, at + 3));
    a.max(b)
}

// The first cell in row j of sub-block (xs, ys).
fn row_at(p: Params, xs: u32, ys: u32, j: u32) -> usize
    requires { Site p xs ys × (j < 4) }
    ensures { (result ≡ row_at p xs ys j) × (result + 4 ≤ area p) }
{
    (((4 * ys + j) << p.log2) + 4 * xs) as usize
}

// Whether sub-block (xs, ys) has no level. Its four rows are looked at as they stand, in no scan's order.
pub fn is_bare(block: &[i32], p: Params, xs: u32, ys: u32) -> bool
    requires { Site p xs ys × (length block.now ≡ area p) }
    ensures { (w : Wanted) → w.levels ≡ block.now → result ≡ none (sig_places (wanted_in p (inner_of p) (spot xs ys)) w) }
{
    let a = row_most(block, row_at(p, xs, ys, 0));
    let b = row_most(block, row_at(p, xs, ys, 1));
    let c = row_most(block, row_at(p, xs, ys, 2));
    let d = row_most(block, row_at(p, xs, ys, 3));
    a.max(b).max(c.max(d)) == 0
}

// The levels of sub-block (xs, ys).
pub fn levels_of(block: &[i32], order: &[[u8; 2]; 16], p: Params, xs: u32, ys: u32) -> [i32; 16]
    requires { (order.now ≡ pairs_of (inner_of p)) × Site p xs ys × (length block.now ≡ area p) }
    ensures { (w : Wanted) → w.levels ≡ block.now → Shows (wanted_in p (inner_of p) (spot xs ys)) w result }
{
    let mut levels = [0i32; 16];
    for (k, level) in levels.iter_mut().enumerate() {
        *level = level_at(block, order, p, xs, ys, k);
    }
    levels
}

// 1 if a level is not 0.
pub fn is_level(v: i32) -> u32
    ensures { (result ≡ bit_no (ltb 0 (nat_abs v))) × (result ≤ 1) }
{
    u32::from(0 < magnitude(v))
}

// The places with a level, highest first.
pub fn places_of(levels: &[i32; 16]) -> Places
    ensures { Packs result × (unpacked result ≡ down_from (is_level levels.now) 16) }
{
    let mut s = Places {
        packed: 0,
        count: 0,
    };
    for k in (0..16u32).rev() {
        s = appended(s, k, is_level(levels[k as usize]));
    }
    s
}

// The places of sub-block (xs, ys) with a level.
pub fn places_at(block: &[i32], order: &[[u8; 2]; 16], p: Params, xs: u32, ys: u32) -> Places
    requires { (order.now ≡ pairs_of (inner_of p)) × Site p xs ys × (length block.now ≡ area p) }
    ensures { Packs result × ((w : Wanted) → w.levels ≡ block.now → unpacked result ≡ sig_places (wanted_in p (inner_of p) (spot xs ys)) w) }
{
    if is_bare(block, p, xs, ys) {
        return Places {
            packed: 0,
            count: 0,
        };
    }
    let levels = levels_of(block, order, p, xs, ys);
    places_of(&levels)
}

// The sum of the magnitudes: it fits of any 16 levels.
pub fn sum_of(levels: &[i32; 16]) -> u64
    ensures { result ≡ sum_below levels.now 16 }
{
    let mut sum: u64 = 0;
    for level in levels {
        sum += magnitude(*level) as u64;
    }
    sum
}
