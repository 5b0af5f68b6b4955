// A magnitude less 1: ones with contexts, then Exp-Golomb in bypass bins.
ghost use Rattle.std.specs.Prelude.{◌≡◌, List, ℕ, ◌<◌, ℤ};
ghost use Rattle.bins.specs.Syn.{done};
ghost use Rattle.trees.specs.Shapes.{golomb_s};
ghost use Rattle.pen.specs.Sheet.{sheet, Wrote};
ghost use Rattle.h264_block.specs.Block.{magnitude_s};

use exp_golomb::{eg_count, eg_rest};
use h264_numbers::numbers::{first_number, later_number};
use pen::room::Pen;
use pen_shapes::plain::{put_bits, put_count, put_ones};

// Exp-Golomb of order 0.
fn put_suffix(room: &mut [u8], pen: Pen, v: u32) -> Pen
    requires { v < 65535 }
    ensures { (want : List ℤ → ℕ) (w : List ℤ) → want w ≡ v → Wrote (golomb_s 16 0 want) (done v) w (sheet room.old pen) (sheet room.new result) }
{
    let n = eg_count(0, v, 16);
    let y = put_ones(room, pen, n, 16);
    put_bits(room, y, n, eg_rest(n, 0, v))
}

// Behind so many magnitudes of 1 and so many above 1.
pub fn put_magnitude(room: &mut [u8], pen: Pen, ones: u32, bigs: u32, v: u32) -> Pen
    requires { v < 65549 }
    ensures { (want : List ℤ → ℕ) (w : List ℤ) → want w ≡ v → Wrote (magnitude_s ones bigs want) (done v) w (sheet room.old pen) (sheet room.new result) }
{
    let first = first_number(ones, bigs);
    let later = later_number(bigs);
    if v < 14 {
        return put_count(room, pen, first, later, v, 14);
    }
    let y = put_count(room, pen, first, later, 14, 14);
    put_suffix(room, y, v - 14)
}
