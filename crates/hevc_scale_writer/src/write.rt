// The scale as bins.
ghost use Rattle.std.specs.Prelude.{◌≡◌, ◌≤◌, ℤ, nat_abs};
ghost use Rattle.bins.specs.Syn.{done};
ghost use Rattle.hevc_residual.specs.Wanted.{Wanted, negative};
ghost use Rattle.pen.specs.Sheet.{sheet, Wrote};
ghost use Rattle.hevc_cross.specs.Scale.{scale_s, magnitude};
ghost use Rattle.hevc_scale_writer.specs.WriteAgree.{value_of, only};

use hevc_pen::shapes::put_prefix;
use hevc_scale_syntax::layout::{SIGN, VALUE};
use level_sizes::sizes::magnitude;
use pen::room::{Pen, put_bin};

// The value of a magnitude; none of one that no scale has.
#[tactic(auto, unfolding(crate::specs::WriteAgree::value_of))]
fn value_of(m: u32) -> Option<u32>
    ensures { result ≡ value_of m }
{
    match m {
        0 => Some(0),
        1 => Some(1),
        2 => Some(2),
        4 => Some(3),
        8 => Some(4),
        _ => None,
    }
}

pub fn value(scale: i32) -> Option<u32>
    ensures { result ≡ value_of (nat_abs scale) }
{
    value_of(magnitude(scale))
}

// The scale of value v and this sign.
pub fn put_scale(room: &mut [u8], pen: Pen, component: usize, v: u32, sign: bool) -> Pen
    requires { (component ≤ 1) × (v ≤ 4) }
    ensures { (z : ℤ) (w : Wanted) → nat_abs z ≡ magnitude v → negative z ≡ sign → Wrote (scale_s (only z) component) (done z) w (sheet room.old pen) (sheet room.new result) }
{
    let behind = put_prefix(room, pen, VALUE + 4 * component, 0, v, 4);
    if v == 0 {
        return behind;
    }
    put_bin(room, behind, SIGN + component, sign)
}
