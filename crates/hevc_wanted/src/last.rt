// The last place in scan order at which the block has a level.
ghost use Rattle.std.specs.Prelude.{◌≡◌, ◌-◌, ◌^◌, ◌<◌, length};
ghost use Rattle.hevc_residual.specs.Wanted.{Wanted, area, outer_of, inner_of, spot_in};
ghost use Rattle.hevc_residual.specs.Head.{last_wanted};
ghost use Rattle.hevc_residual.specs.Scan.{spot};
ghost use Rattle.hevc_scans.specs.Pairs.{pairs_of, Orders};
ghost use Rattle.hevc_rules.specs.LevelsAgree.{Site};
ghost use Rattle.hevc_residual.specs.Limits.{Accepted};
ghost use Rattle.hevc_wanted.specs.LastAgree.{Inside};

use crate::sub::{corner_at, places_at};
use hevc_residual::params::Params;
use hevc_sizes::sizes::grid;

// A place of the block: column and row.
#[derive(Clone, Copy)]
pub struct Place {
    pub x: u32,
    pub y: u32,
}

// Place k of the scan of sub-block (xs, ys).
pub fn place_in(order: &[[u8; 2]; 16], p: Params, xs: u32, ys: u32, k: usize) -> Place
    requires { (order.now ≡ pairs_of (inner_of p)) × Site p xs ys × (k < 16) }
    ensures { (spot_in (inner_of p) (spot xs ys) k ≡ spot result.x result.y) × Inside p result }
{
    let x = 4 * xs + order[k][0] as u32;
    let y = 4 * ys + order[k][1] as u32;
    Place { x, y }
}

// (0, 0) where the block has no level: an Option would be no plainer, since the syntax itself says (0, 0) there, and 9 keeps the writer from asking.
pub fn last_wanted(block: &[i32], order: &[[u8; 2]; 16], outer: &[[u8; 2]; 64], p: Params) -> Place
    requires { (order.now ≡ pairs_of (inner_of p)) × Orders (4 ^ (p.log2 - 2)) (outer_of p) outer.now × Accepted p × (length block.now ≡ area p) }
    ensures { ((w : Wanted) → w.levels ≡ block.now → spot result.x result.y ≡ last_wanted p (outer_of p) (inner_of p) w (area p)) × Inside p result }
{
    for i in (0..grid(p.log2)).rev() {
        let c = corner_at(outer, p, i);
        let s = places_at(block, order, p, c.xs, c.ys);
        if 0 < s.count {
            return place_in(order, p, c.xs, c.ys, (s.packed % 16) as usize);
        }
    }
    Place { x: 0, y: 0 }
}
