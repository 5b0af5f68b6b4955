// The shapes that the elements of any syntax are made of: what is written is told by what is handed in, and no wants are looked at.
ghost use Rattle.std.specs.Prelude.{ℕ, ◌^◌, ◌≤◌, ◌<◌};
ghost use Rattle.bins.specs.Syn.{done};
ghost use Rattle.trees.specs.Shapes.{first_then};
ghost use Rattle.pen.specs.Sheet.{sheet, Wrote};
ghost use Rattle.pen_shapes.specs.PlainLaws.{bits_p, ones_p, count_p};

use pen::room::{Pen, put_bin, put_bypass};

// Several bypass bins, the highest bit first.
pub fn put_bits(room: &mut [u8], pen: Pen, n: u32, v: u32) -> Pen
    requires { (n ≤ 32) × (v < 2 ^ n) }
    ensures { (w : ℕ) → Wrote (bits_p n v) (done v) w (sheet room.old pen) (sheet room.new result) }
{
    let mut y = pen;
    for k in (0..n).rev() {
        y = put_bypass(room, y, (v >> k) % 2 == 1);
    }
    y
}

// n ones, and a zero behind them unless n is the greatest count: bypass bins.
pub fn put_ones(room: &mut [u8], pen: Pen, n: u32, most: u32) -> Pen
    requires { n ≤ most }
    ensures { (w : ℕ) → Wrote (ones_p most n) (done n) w (sheet room.old pen) (sheet room.new result) }
{
    let mut y = pen;
    for _g in 0..n {
        y = put_bypass(room, y, true);
    }
    if n < most {
        return put_bypass(room, y, false);
    }
    y
}

// The same with contexts: the first bin has one, the others another.
pub fn put_count(room: &mut [u8], pen: Pen, first: usize, later: usize, n: u32, most: u32) -> Pen
    requires { (first < 32768) × (later < 32768) × (n ≤ most) }
    ensures { (w : ℕ) → Wrote (count_p (first_then first later) most n) (done n) w (sheet room.old pen) (sheet room.new result) }
{
    let mut y = pen;
    let mut number = first;
    for _g in 0..n {
        y = put_bin(room, y, number, true);
        number = later;
    }
    if n < most {
        return put_bin(room, y, number, false);
    }
    y
}
