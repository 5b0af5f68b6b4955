// What stands before the sub-blocks: transform_skip_flag, explicit RDPCM, the last significant position.
ghost use Rattle.std.specs.Prelude.{◌≡◌, cond, ℕ, ◌+◌, ◌*◌, ◌-◌, ◌^◌, ◌≤◌, ◌<◌, eqb};
ghost use Rattle.bins.specs.Syn.{done};
ghost use Rattle.bins.specs.Readers.{bits_s};
ghost use Rattle.hevc_residual.specs.Scan.{spot};
ghost use Rattle.hevc_residual.specs.Wanted.{Wanted, area, outer_of, inner_of};
ghost use Rattle.hevc_residual.specs.Head.{least_of, suffix_bits, greatest_group, last_prefix, last_wanted, head_s, rdpcm_flag, rdpcm_dir};
ghost use Rattle.hevc_head_rules.specs.HeadOf.{head_of};
ghost use Rattle.pen.specs.Sheet.{sheet, Wrote};
ghost use Rattle.hevc_pen.specs.HeadLaws.{group_of, Codable};

use crate::shapes::{put_bits, put_flag_if, put_prefix};
use hevc_head_rules::head::{Head, in_chroma, least, rdpcm_coded, skip_coded, suffix_bits};
use hevc_residual::params::{Params, Rdpcm};
use pen::room::Pen;

const GROUP: [u8; 32] = [
    0, 1, 2, 3, 4, 4, 5, 5, 6, 6, 6, 6, 7, 7, 7, 7, 8, 8, 8, 8, 8, 8, 8, 8, 9, 9, 9, 9, 9, 9, 9, 9,
];

// The group of a position.
fn group_of(v: u32) -> u32
    requires { v < 32 }
    ensures { result ≡ group_of v }
{
    GROUP[v as usize] as u32
}

// The prefix of one coordinate that lies in group g; its contexts begin at first, 0 for x and 18 for y.
fn put_last_prefix(room: &mut [u8], pen: Pen, first: usize, luma: bool, log2: u32, v: u32) -> Pen
    requires { (first ≤ 18) × (2 ≤ log2) × (log2 ≤ 5) × (v < 2 ^ log2) }
    ensures { (want : Wanted → ℕ) (w : Wanted) → want w ≡ v → Wrote (last_prefix first luma log2 want) (done (group_of v)) w (sheet room.old pen) (sheet room.new result) }
{
    let most = 2 * log2 - 1;
    let g = group_of(v);
    if luma {
        let base = first + (3 * (log2 - 2) + (log2 - 1) / 4) as usize;
        return put_prefix(room, pen, base, (log2 + 1) / 4, g, most);
    }
    put_prefix(room, pen, first + 15, log2 - 2, g, most)
}

// The suffix of one coordinate.
fn put_last_suffix(room: &mut [u8], pen: Pen, v: u32) -> Pen
    requires { v < 32 }
    ensures { (x : Wanted → ℕ) (t : Wanted) → x t ≡ v - least_of (group_of v) → Wrote (bits_s (suffix_bits (group_of v)) 0 x) (done (v - least_of (group_of v))) t (sheet room.old pen) (sheet room.new result) }
{
    let g = group_of(v);
    put_bits(room, pen, suffix_bits(g), v - least(g))
}

fn is_explicit(r: Rdpcm) -> bool
    ensures { result ≡ rdpcm_flag r }
{
    match r {
        Rdpcm::None => false,
        Rdpcm::Horizontal => true,
        Rdpcm::Vertical => true,
    }
}

fn is_vertical(r: Rdpcm) -> bool
    ensures { result ≡ rdpcm_dir r }
{
    match r {
        Rdpcm::None => false,
        Rdpcm::Horizontal => false,
        Rdpcm::Vertical => true,
    }
}

// Scan 2 swaps the coordinates: which of two comes first.
fn first_of(scan: u32, x: u32, y: u32) -> u32
    ensures { result ≡ cond (eqb scan 2) y x }
{
    if scan == 2 { y } else { x }
}

// Both prefixes come before the suffixes.
pub fn put_head(room: &mut [u8], pen: Pen, p: Params, h: Head) -> Pen
    requires { (2 ≤ p.log2) × (p.log2 ≤ 5) × (h.x < 2 ^ p.log2) × (h.y < 2 ^ p.log2) × Codable p h.skip h.rdpcm }
    ensures { (w : Wanted) → w.skip ≡ h.skip → w.rdpcm ≡ h.rdpcm → last_wanted p (outer_of p) (inner_of p) w (area p) ≡ spot h.x h.y → Wrote (head_s p (outer_of p) (inner_of p)) (done (head_of h)) w (sheet room.old pen) (sheet room.new result) }
{
    let chroma = in_chroma(p.luma, 1);
    let rdpcm = h.rdpcm;
    let explicit = is_explicit(rdpcm);
    let a = put_flag_if(room, pen, skip_coded(p), 114 + chroma, h.skip);
    let b = put_flag_if(room, a, rdpcm_coded(p, h.skip), 116 + chroma, explicit);
    let c = put_flag_if(room, b, explicit, 118 + chroma, is_vertical(rdpcm));
    let x = first_of(p.scan, h.x, h.y);
    let y = first_of(p.scan, h.y, h.x);
    let d = put_last_prefix(room, c, 0, p.luma, p.log2, x);
    let e = put_last_prefix(room, d, 18, p.luma, p.log2, y);
    let f = put_last_suffix(room, e, x);
    put_last_suffix(room, f, y)
}
