// Remainders, highest place first.
ghost use Rattle.std.specs.Prelude.{◌≡◌, Bool, cond, ℕ, ◌+◌, ◌-◌, ◌^◌, ◌≤◌, ◌<◌, ℤ, pos, nat_abs, get_or};
ghost use Rattle.bins.specs.Syn.{done};
ghost use Rattle.hevc_residual.specs.Wanted.{Wanted};
ghost use Rattle.hevc_residual.specs.Remainder.{log2_transform_range};
ghost use Rattle.hevc_rules.specs.LevelsAgree.{Fine, extra_s};
ghost use Rattle.pen.specs.Sheet.{sheet, Wrote};
ghost use Rattle.hevc_levels_pen.specs.LevelsPuts.{InRange, GoesOn, GoesOut};

use hevc_level_rules::levels::{base_of, behind};
use hevc_pen::remainder::put_remainder;
use hevc_residual::params::Params;
use hevc_rules::levels::Going;
use level_sizes::sizes::magnitude;
use pen::room::Pen;

#[derive(Clone, Copy)]
pub struct PutLevel {
    pub going: Going,
    pub pen: Pen,
}

fn value_if(more: bool, v: u32) -> u32
    ensures { result ≡ cond more v 0 }
{
    if more { v } else { 0 }
}

// A remainder where one follows.
fn put_extra(room: &mut [u8], pen: Pen, p: Params, more: bool, rice: u32, v: u32) -> Pen
    requires { (p.depth ≤ 16) × (rice ≤ 21) × (v < 2 ^ log2_transform_range p) }
    ensures { (want : Wanted → ℕ) (w : Wanted) → want w ≡ v → Wrote (extra_s p more rice want) (done (cond more v 0)) w (sheet room.old pen) (sheet room.new result) }
{
    if more {
        return put_remainder(room, pen, p, rice, v);
    }
    pen
}

// One level. Its column is not counted: it is no part of the list.
pub fn put_level(
    room: &mut [u8],
    pen: Pen,
    levels: &[i32; 16],
    p: Params,
    greater2: bool,
    g: Going,
) -> PutLevel
    requires { (p.depth ≤ 16) × InRange p levels.now × Fine p g × (0 < g.count) }
    ensures { Fine p result.going × (result.going.count + 1 ≡ g.count) × GoesOn p levels.now greater2 g result.going (sheet room.old pen) (sheet room.new result.pen) }
{
    let d = base_of(g.bins, g.mask, g.seen, greater2);
    let more = d.more;
    let k = (g.places % 16) as usize;
    let rest = magnitude(levels[k]).saturating_sub(d.level);
    let y = put_extra(room, pen, p, more, g.rice, rest);
    let v = value_if(more, rest);
    let m = d.level + v;
    let going = behind(p, g, more, v, m, g.sum + m, 0);
    PutLevel { going, pen: y }
}

// All the levels left.
pub fn put_levels(
    room: &mut [u8],
    pen: Pen,
    levels: &[i32; 16],
    p: Params,
    greater2: bool,
    start: Going,
) -> PutLevel
    requires { (p.depth ≤ 16) × InRange p levels.now × Fine p start }
    ensures { Fine p result.going × GoesOut p levels.now greater2 start result.going (sheet room.old pen) (sheet room.new result.pen) }
{
    let mut g = start;
    let mut y = pen;
    while 0 < g.count {
        let r = put_level(room, y, levels, p, greater2, g);
        g = r.going;
        y = r.pen;
    }
    PutLevel { going: g, pen: y }
}
