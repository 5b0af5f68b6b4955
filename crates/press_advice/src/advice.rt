// Where a drawing is refused, and which single change would do.
ghost use Rattle.std.specs.Prelude.{◌≡◌, ◌-◌, ◌*◌, ◌/◌, ◌^◌, ◌≤◌, ◌<◌, length};
ghost use Rattle.hevc_residual.specs.Wanted.{area};
ghost use Rattle.hevc_residual.specs.Limits.{Accepted};
ghost use Rattle.press_strokes.specs.Advice.{refusal_of, is_taken};
ghost use Rattle.press_advice.specs.Says.{PlaceHolds, ChangeHolds};

use hevc_checks::checks::parameter_refusal;
use hevc_magnitudes::magnitudes::range_bits;
use hevc_residual::params::Params;
use hevc_scans::orders::outer_order;
use hevc_sizes::sizes::{area_of, grid};
use hevc_wanted::sub::corner_at;
use press_strokes::search::{first_far, first_off, first_taken, refusal};
use press_strokes::strokes::stroke_at;

// Where the writer's number comes from. Three answers, so neither an Option nor a Result.
#[derive(Clone, Copy)]
pub enum Place {
    Nowhere(u32), // nothing is refused, or by a number of no place: 0, 4, 9
    Far(usize), // 8: the first level out of range, by its place row by row
    Off(u32, u32), // 11: the first sub-block whose hidden sign disagrees, by its column and row among sub-blocks
}

// A level in another's place, by the place row by row.
#[derive(Clone, Copy)]
pub struct Change {
    pub place: usize,
    pub level: i32,
}

// 8
fn far_place(p: Params, levels: &[i32; 1024]) -> Place
    requires { Accepted p × (refusal_of p levels.now ≡ 8) }
    ensures { PlaceHolds p levels.now result }
{
    let n = area_of(p.log2);
    let i = first_far(range_bits(p), n, levels);
    if i < n {
        return Place::Far(i);
    }
    Place::Nowhere(8)
}

// 11
fn off_place(p: Params, levels: &[i32; 1024]) -> Place
    requires { Accepted p × (refusal_of p levels.now ≡ 11) × (area p ≤ length levels.now) }
    ensures { PlaceHolds p levels.now result }
{
    let all = *levels;
    let i = first_off(p, &all[..area_of(p.log2)]);
    if i < grid(p.log2) {
        let outer = outer_order(p.log2, p.scan);
        let c = corner_at(&outer, p, i);
        return Place::Off(c.xs, c.ys);
    }
    Place::Nowhere(11)
}

// The number, and the first place that gives it.
pub fn place_of(p: Params, levels: &[i32; 1024]) -> Place
    ensures { PlaceHolds p levels.now result }
{
    let a = parameter_refusal(p, levels);
    if a != 0 {
        return Place::Nowhere(a);
    }
    let n = refusal(p, levels);
    if n == 8 {
        return far_place(p, levels);
    }
    if n == 11 {
        return off_place(p, levels);
    }
    Place::Nowhere(n)
}

// The first single change that the writer takes: of each level, row by row, its magnitude one more, one less, its other sign.
pub fn change_of(p: Params, levels: &[i32; 1024]) -> Option<Change>
    ensures { ChangeHolds p levels.now result }
{
    if parameter_refusal(p, levels) != 0 {
        return None;
    }
    let c = first_taken(p, levels);
    if c < 3 * area_of(p.log2) {
        let i = c / 3;
        return Some(Change {
            place: i,
            level: stroke_at(levels, i, c % 3),
        });
    }
    None
}
