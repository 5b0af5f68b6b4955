// What goes from a level of a sub-block to the next, and where a level goes.
ghost use Rattle.std.specs.Prelude.{◌-◌, ◌<◌, max, ◌≤◌, ◌≡◌, ◌||◌, not, ◌&&◌, cond};
ghost use Rattle.hevc_rules.specs.LevelsAgree.{Based, seen_now, Fine, behind_of, Site, Lies};
ghost use Rattle.hevc_places.specs.Packing.{unmask};
ghost use Rattle.hevc_residual.specs.Remainder.{stat_next, rice_next};
ghost use Rattle.hevc_residual.specs.Wanted.{inner_of};
ghost use Rattle.hevc_scans.specs.Pairs.{pairs_of};

use hevc_magnitudes::magnitudes::{rice_next, stat_next};
use hevc_residual::params::Params;
use hevc_rules::levels::{Base, Cell, Going};
use level_sizes::sizes::larger;

pub fn base_of(bins: u32, mask: u32, seen: bool, greater2: bool) -> Base
    ensures { Based result.level result.more mask bins seen greater2 }
{
    if bins == 0 {
        return Base {
            level: 1,
            more: true,
        };
    }
    if mask % 2 == 0 {
        return Base {
            level: 1,
            more: false,
        };
    }
    if seen {
        return Base {
            level: 2,
            more: true,
        };
    }
    if greater2 {
        return Base {
            level: 3,
            more: true,
        };
    }
    Base {
        level: 2,
        more: false,
    }
}

// Whether a greater1 was met, behind the next bin.
fn seen_behind(bins: u32, mask: u32, seen: bool) -> bool
    ensures { result ≡ seen_now (unmask mask bins) seen }
{
    if bins == 0 {
        return seen;
    }
    if mask % 2 == 0 {
        return seen;
    }
    true
}

// The statistic moves with the first remainder of a sub-block alone.
fn stat_behind(p: Params, g: Going, more: bool, v: u32) -> u8
    requires { (g.stat ≤ 84) × (v ≤ 1073741824) }
    ensures { result ≡ cond (more && (p.persistent && not g.had)) (stat_next g.stat v) g.stat }
{
    if more && p.persistent && !g.had {
        return stat_next(g.stat, v);
    }
    g.stat
}

fn rice_behind(p: Params, g: Going, more: bool, m: u32) -> u32
    requires { g.rice ≤ 21 }
    ensures { result ≡ cond more (rice_next p g.rice m) g.rice }
{
    if more {
        return rice_next(p, g.rice, m);
    }
    g.rice
}

// What goes on behind a level of remainder v and magnitude m, where the magnitudes come to sum.
pub fn behind(p: Params, g: Going, more: bool, v: u32, m: u32, sum: u32, column: u32) -> Going
    requires { Fine p g × (0 < g.count) × (v ≤ 1073741824) }
    ensures { result ≡ behind_of p g more v m sum column }
{
    Going {
        places: g.places / 16,
        count: g.count - 1,
        mask: g.mask / 2,
        bins: g.bins.saturating_sub(1),
        seen: seen_behind(g.bins, g.mask, g.seen),
        signs: g.signs.saturating_sub(1),
        rice: rice_behind(p, g, more, m),
        had: g.had || more,
        sum,
        column: larger(g.column, column),
        stat: stat_behind(p, g, more, v),
    }
}

// Place k of the scan of sub-block (xs, ys).
pub fn cell_of(order: &[[u8; 2]; 16], p: Params, xs: u32, ys: u32, k: usize) -> Cell
    requires { (order.now ≡ pairs_of (inner_of p)) × Site p xs ys × (k < 16) }
    ensures { Lies p xs ys k result.column result.at }
{
    let column = 4 * xs + order[k][0] as u32;
    let row = 4 * ys + order[k][1] as u32;
    Cell {
        column,
        at: ((row << p.log2) + column) as usize,
    }
}
