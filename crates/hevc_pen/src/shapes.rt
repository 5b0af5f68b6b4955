// The shapes by HEVC's wants: a number of bits, a flag that may not be coded, a prefix of ones.
ghost use Rattle.std.specs.Prelude.{◌≡◌, Bool, true, ◌&&◌, ℕ, ◌+◌, ◌^◌, ◌≤◌, ◌<◌};
ghost use Rattle.bins.specs.Syn.{done};
ghost use Rattle.bins.specs.Readers.{flag_if, bits_s, ones_s, prefix_s};
ghost use Rattle.bins.specs.Tags.{context_count};
ghost use Rattle.hevc_residual.specs.Wanted.{Wanted};
ghost use Rattle.pen.specs.Sheet.{sheet, Wrote, Counts};

use pen::room::{Pen, put_bin};
use pen_shapes::plain;

// Several bypass bins, the highest bit first.
pub fn put_bits(room: &mut [u8], pen: Pen, n: u32, v: u32) -> Pen
    requires { (n ≤ 32) × (v < 2 ^ n) }
    ensures { (want : Wanted → ℕ) (w : Wanted) → want w ≡ v → Wrote (bits_s n 0 want) (done v) w (sheet room.old pen) (sheet room.new result) }
{
    plain::put_bits(room, pen, n, v)
}

// A flag where it is coded.
pub fn put_flag_if(room: &mut [u8], pen: Pen, coded: bool, number: usize, flag: bool) -> Pen
    requires { number < context_count }
    ensures { (want : Wanted → Bool) (w : Wanted) → (coded ≡ true → want w ≡ flag) → Wrote (flag_if coded number want) (done (coded && flag)) w (sheet room.old pen) (sheet room.new result) }
{
    if coded {
        return put_bin(room, pen, number, flag);
    }
    pen
}

// n ones, and a zero behind them unless n is the greatest count: bins with contexts base + (count shifted right by shift).
pub fn put_prefix(room: &mut [u8], pen: Pen, base: usize, shift: u32, n: u32, most: u32) -> Pen
    requires { (base + most ≤ context_count) × (n ≤ most) × (most ≤ 9) × (shift ≤ 3) }
    ensures { (want : ℕ → Wanted → Bool) (w : Wanted) → Counts want w n most → Wrote (prefix_s base shift most 0 want) (done n) w (sheet room.old pen) (sheet room.new result) }
{
    let mut y = pen;
    for g in 0..n {
        y = put_bin(room, y, base + (g >> shift) as usize, true);
    }
    if n < most {
        return put_bin(room, y, base + (n >> shift) as usize, false);
    }
    y
}

// The same with bypass bins.
pub fn put_ones(room: &mut [u8], pen: Pen, n: u32, most: u32) -> Pen
    requires { n ≤ most }
    ensures { (want : ℕ → Wanted → Bool) (w : Wanted) → Counts want w n most → Wrote (ones_s most 0 want) (done n) w (sheet room.old pen) (sheet room.new result) }
{
    plain::put_ones(room, pen, n, most)
}
