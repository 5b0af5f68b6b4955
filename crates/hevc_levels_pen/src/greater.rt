// coeff_abs_level_greater1_flag of the first eight levels at most, and the one level that may have coeff_abs_level_greater2_flag.
ghost use Rattle.std.specs.Prelude.{◌≡◌, false, ℕ, ◌+◌, ◌^◌, ◌≤◌, ◌<◌, min, ltb, ℤ, pos, nat_abs, get_or};
ghost use Rattle.bins.specs.Engine.{bit_no};
ghost use Rattle.bins.specs.Syn.{done};
ghost use Rattle.bins.specs.Tags.{context_count};
ghost use Rattle.hevc_residual.specs.Wanted.{Wanted};
ghost use Rattle.hevc_residual.specs.SubBlock.{greater1_s, first_greater1};
ghost use Rattle.hevc_places.specs.Packing.{Packs, unpack, unpacked, unmask};
ghost use Rattle.hevc_rules.specs.GreaterAgree.{none};
ghost use Rattle.pen.specs.Sheet.{sheet, Wrote};
ghost use Rattle.hevc_wanted.specs.Shown.{Shows};

use hevc_level_rules::greater::carry_next;
use hevc_places::places::Places;
use level_sizes::sizes::magnitude;
use pen::room::{Pen, put_bin};

// The bins put as a mask, the first in the lowest bit, and greater1Ctx behind them.
#[derive(Clone, Copy)]
pub struct PutGreater {
    pub mask: u32,
    pub carry: u32,
    pub pen: Pen,
}

// Place j of packed places.
pub fn place_at(list: u64, j: u32) -> usize
    requires { j < 16 }
    ensures { (result < 16) × ((n : ℕ) → j < n → result ≡ get_or (unpack list n) j 0) }
{
    ((list >> (4 * j)) % 16) as usize
}

// 1 if the magnitude at place k is above 1.
fn is_big(levels: &[i32; 16], k: usize) -> u32
    requires { k < 16 }
    ensures { (result ≡ bit_no (ltb 1 (nat_abs (get_or levels.now k (pos 0))))) × (result ≤ 1) }
{
    if 1 < magnitude(levels[k]) { 1 } else { 0 }
}

// The bins of the first n places, with contexts base + greater1Ctx.
pub fn put_greater1(
    room: &mut [u8],
    pen: Pen,
    levels: &[i32; 16],
    s: Places,
    base: usize,
    n: u32,
) -> PutGreater
    requires { Packs s × (base + 3 < context_count) × (n ≡ min 8 s.count) }
    ensures { (result.mask < 2 ^ n) × (result.carry ≤ 3) × ((lv : ℕ → Wanted → ℤ) (w : Wanted) → Shows lv w levels.now → Wrote (greater1_s lv base 8 (unpacked s) none) (done (record { bins = unmask result.mask n; greater1_ctx = result.carry })) w (sheet room.old pen) (sheet room.new result.pen)) }
{
    let mut mask: u32 = 0;
    let mut carry: u32 = 1;
    let mut y = pen;
    for j in 0..n {
        let b = is_big(levels, place_at(s.packed, j));
        y = put_bin(room, y, base + carry as usize, b == 1);
        mask = mask + (b << j);
        carry = carry_next(b, carry);
    }
    PutGreater {
        mask,
        carry,
        pen: y,
    }
}

// The place of the first of n bins that is 1.
pub fn first_greater1(s: Places, mask: u32, n: u32) -> usize
    requires { Packs s × (n ≤ s.count) × (mask < 2 ^ n) × (0 < mask) }
    ensures { (result < 16) × (result ≡ first_greater1 (unpacked s) (unmask mask n)) }
{
    place_at(s.packed, u32::trailing_zeros(mask))
}

// Whether the magnitude there is above 2.
pub fn is_greater2(levels: &[i32; 16], s: Places, mask: u32, n: u32) -> bool
    requires { Packs s × (n ≤ s.count) × (mask < 2 ^ n) }
    ensures { (mask ≡ 0 → result ≡ false) × ((lv : ℕ → Wanted → ℤ) (w : Wanted) → Shows lv w levels.now → 0 < mask → result ≡ ltb 2 (nat_abs (lv (first_greater1 (unpacked s) (unmask mask n)) w))) }
{
    if mask == 0 {
        return false;
    }
    let k = first_greater1(s, mask, n);
    2 < magnitude(levels[k])
}
