// Signs and remainders, and the levels that they make, highest place first.
ghost use Rattle.std.specs.Prelude.{◌≡◌, List, ℕ, ◌-◌, ◌≤◌, ◌<◌, length};
ghost use Rattle.bins.specs.Sources.{Readable};
ghost use Rattle.hevc_residual.specs.Wanted.{Wanted, area, inner_of};
ghost use Rattle.hevc_residual.specs.Remainder.{log2_transform_range};
ghost use Rattle.hevc_residual.specs.Scan.{spot};
ghost use Rattle.hevc_elements.specs.Agree.{from};
ghost use Rattle.hevc_scans.specs.Pairs.{pairs_of};
ghost use Rattle.hevc_remainder.specs.RemainderAgree.{SaysCapped};
ghost use Rattle.hevc_rules.specs.LevelsAgree.{Fine, Site, extra_s};
ghost use Rattle.hevc_levels.specs.LevelsAgree.{SaysOne, SaysAll};
ghost use Rattle.hevc_stored.specs.StoredAgree.{Keeps};
ghost use Rattle.hevc_levels.specs.KeptAgree.{KeepsBehind};

use bins::state::{Interval, Refusal, Step, Taken};
use hevc_level_rules::levels::{base_of, behind, cell_of};
use hevc_magnitudes::magnitudes::in_range;
use hevc_remainder::remainder::remainder;
use hevc_residual::params::Params;
use hevc_rules::levels::Going;
use hevc_stored::stored::{Stored, is_free, is_negative, store, stored_behind};

// How far the levels are, what is told of those stored, and the state behind them.
#[derive(Clone, Copy)]
pub struct Leveled {
    pub going: Going,
    pub stored: Stored,
    pub next: Interval,
}

// A remainder where one follows.
fn extra(list: bool, p: Params, more: bool, rice: u32, bytes: &[u8], x: Interval) -> Step
    requires { Readable list bytes.now x × (p.depth ≤ 16) × (rice ≤ 21) }
    ensures { (w : Wanted → ℕ) (contexts : List ℕ) → SaysCapped result contexts (from list bytes.now (extra_s p more rice w) x contexts) }
{
    if more {
        return remainder(list, p, rice, bytes, x);
    }
    Ok(Taken { value: 0, next: x })
}

// One level: read, tested, stored at its place of sub-block (xs, ys).
pub fn one_level(
    list: bool,
    bytes: &[u8],
    order: &[[u8; 2]; 16],
    block: &mut [i32],
    p: Params,
    t: u32,
    xs: u32,
    ys: u32,
    greater2: bool,
    signs: u32,
    g: Going,
    k: Stored,
    x: Interval,
) -> Result<Leveled, Refusal>
    requires { Readable list bytes.now x × (order.now ≡ pairs_of (inner_of p)) × Site p xs ys × (length block.old ≡ area p) × (t ≡ log2_transform_range p) × Fine p g × (0 < g.count) × Keeps p k block.old }
    ensures { (length block.new ≡ area p) × SaysOne p (spot xs ys) list bytes.now greater2 signs g x block.old result block.new × KeepsBehind p result block.new }
{
    let d = base_of(g.bins, g.mask, g.seen, greater2);
    let Taken { value: v, next: y } = extra(list, p, d.more, g.rice, bytes, x)?;
    let m = d.level + v;
    let sum = g.sum + m;
    let negative = is_negative(g.signs, signs, sum);
    if !in_range(t, negative, m) {
        return Err(Refusal { number: 8, at: y });
    }
    let cell = cell_of(order, p, xs, ys, (g.places % 16) as usize);
    let free = is_free(block, cell.at);
    store(block, cell.at, negative, m);
    let place = cell.at as u32;
    Ok(Leveled {
        going: behind(p, g, d.more, v, m, sum, cell.column),
        stored: stored_behind(k, free, m, place),
        next: y,
    })
}

// All the levels left.
pub fn read_levels(
    list: bool,
    bytes: &[u8],
    order: &[[u8; 2]; 16],
    block: &mut [i32],
    p: Params,
    t: u32,
    xs: u32,
    ys: u32,
    greater2: bool,
    signs: u32,
    start: Going,
    begun: Stored,
    x: Interval,
) -> Result<Leveled, Refusal>
    requires { Readable list bytes.now x × (order.now ≡ pairs_of (inner_of p)) × Site p xs ys × (length block.old ≡ area p) × (t ≡ log2_transform_range p) × Fine p start × Keeps p begun block.old }
    ensures { (length block.new ≡ area p) × SaysAll p (spot xs ys) list bytes.now greater2 signs start x block.old result block.new × KeepsBehind p result block.new }
{
    let mut g = start;
    let mut k = begun;
    let mut y = x;
    for _i in 0..start.count {
        let Leveled {
            going,
            stored,
            next,
        } = one_level(
            list, bytes, order, block, p, t, xs, ys, greater2, signs, g, k, y,
        )?;
        g = going;
        k = stored;
        y = next;
    }
    Ok(Leveled {
        going: g,
        stored: k,
        next: y,
    })
}
