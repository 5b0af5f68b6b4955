// coeff_abs_level_remaining.
ghost use Rattle.std.specs.Prelude.{◌≡◌, ℕ, ◌^◌, ◌≤◌, ◌<◌};
ghost use Rattle.bins.specs.Syn.{done};
ghost use Rattle.hevc_residual.specs.Wanted.{Wanted};
ghost use Rattle.hevc_residual.specs.Remainder.{log2_transform_range, egk_s, limited_s, remainder_s};
ghost use Rattle.hevc_magnitudes.specs.Escape.{escape_s};
ghost use Rattle.pen.specs.Sheet.{sheet, Wrote};

use crate::shapes::{put_bits, put_ones};
use exp_golomb::{eg_count, eg_rest};
use hevc_magnitudes::magnitudes::{escape_length, range_bits};
use hevc_residual::params::Params;
use pen::room::Pen;

// Exp-Golomb of order k.
fn put_exp_golomb(room: &mut [u8], pen: Pen, k: u32, v: u32) -> Pen
    requires { (k ≤ 22) × (v < 4194304) }
    ensures { (want : Wanted → ℕ) (w : Wanted) → want w ≡ v → Wrote (egk_s k want) (done v) w (sheet room.old pen) (sheet room.new result) }
{
    let n = eg_count(k, v, 31);
    let y = put_ones(room, pen, n, 31);
    put_bits(room, y, n + k, eg_rest(n, k, v))
}

// The limited form, under extended precision.
fn put_limited(room: &mut [u8], pen: Pen, t: u32, k: u32, v: u32) -> Pen
    requires { (15 ≤ t) × (t ≤ 22) × (k ≤ 22) × (v < 2 ^ t) }
    ensures { (want : Wanted → ℕ) (w : Wanted) → want w ≡ v → Wrote (limited_s t k want) (done v) w (sheet room.old pen) (sheet room.new result) }
{
    let n = eg_count(k, v, 28 - t);
    let y = put_ones(room, pen, n, 28 - t);
    put_bits(room, y, escape_length(t, n, k), eg_rest(n, k, v))
}

// What follows four ones.
fn put_escape(room: &mut [u8], pen: Pen, p: Params, k: u32, v: u32) -> Pen
    requires { (p.depth ≤ 16) × (k ≤ 22) × (v < 2 ^ log2_transform_range p) }
    ensures { (want : Wanted → ℕ) (w : Wanted) → want w ≡ v → Wrote (escape_s p k want) (done v) w (sheet room.old pen) (sheet room.new result) }
{
    if p.extended {
        return put_limited(room, pen, range_bits(p), k, v);
    }
    put_exp_golomb(room, pen, k, v)
}

// Up to four ones; under four, rice suffix bits, else an escape.
pub fn put_remainder(room: &mut [u8], pen: Pen, p: Params, rice: u32, v: u32) -> Pen
    requires { (p.depth ≤ 16) × (rice ≤ 21) × (v < 2 ^ log2_transform_range p) }
    ensures { (want : Wanted → ℕ) (w : Wanted) → want w ≡ v → Wrote (remainder_s p rice want) (done v) w (sheet room.old pen) (sheet room.new result) }
{
    let q = v >> rice;
    if q < 4 {
        let y = put_ones(room, pen, q, 4);
        return put_bits(room, y, rice, v - (q << rice));
    }
    let y = put_ones(room, pen, 4, 4);
    put_escape(room, y, p, rice + 1, v - (4 << rice))
}
