// coeff_sign_flag of several levels, as one number.
ghost use Rattle.std.specs.Prelude.{◌≡◌, ℕ, ◌^◌, ◌≤◌, ◌<◌, ℤ, pos, get_or};
ghost use Rattle.bins.specs.Engine.{bit_no};
ghost use Rattle.hevc_residual.specs.Wanted.{Wanted, negative};
ghost use Rattle.hevc_residual.specs.SubBlock.{signs_no};
ghost use Rattle.hevc_places.specs.Packing.{Packs, unpacked};
ghost use Rattle.hevc_wanted.specs.Shown.{Shows};

use crate::greater::place_at;
use hevc_places::places::Places;

// 1 if the level at place k is negative.
fn sign_at(levels: &[i32; 16], k: usize) -> u32
    requires { k < 16 }
    ensures { (result ≡ bit_no (negative (get_or levels.now k (pos 0)))) × (result ≤ 1) }
{
    if levels[k] < 0 { 1 } else { 0 }
}

// The signs at the first n places, the first in the highest bit.
pub fn signs_of(levels: &[i32; 16], s: Places, n: u32) -> u32
    requires { Packs s × (n ≤ s.count) }
    ensures { (result < 2 ^ n) × ((lv : ℕ → Wanted → ℤ) (w : Wanted) → Shows lv w levels.now → result ≡ signs_no lv n (unpacked s) w 0) }
{
    let mut v: u32 = 0;
    for j in 0..n {
        v = v * 2 + sign_at(levels, place_at(s.packed, j));
    }
    v
}
