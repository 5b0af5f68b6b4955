// What stands before the sub-blocks: which flags are coded, the groups of the last significant position, and what all of it makes.
ghost use Rattle.std.specs.Prelude.{◌≡◌, ◌≤◌, ◌<◌, eqb};
ghost use Rattle.hevc_residual.specs.Layout.{in_chroma};
ghost use Rattle.hevc_residual.specs.Head.{least_of, suffix_bits, rdpcm_of, skip_coded, rdpcm_coded};
ghost use Rattle.hevc_head_rules.specs.HeadOf.{head_of, placed_at};

use hevc_residual::params::{Params, Rdpcm};

// What the block has settled before its sub-blocks; x and y are the last significant position.
#[derive(Clone, Copy)]
pub struct Head {
    pub skip: bool,
    pub rdpcm: Rdpcm,
    pub x: u32,
    pub y: u32,
}

// The least position of each group.
const LEAST: [u8; 10] = [0, 1, 2, 3, 4, 6, 8, 12, 16, 24];

pub fn least(g: u32) -> u32
    requires { g ≤ 9 }
    ensures { result ≡ least_of g }
{
    LEAST[g as usize] as u32
}

// The bits that tell a group's positions apart.
pub fn suffix_bits(g: u32) -> u32
    ensures { result ≡ suffix_bits g }
{
    g.saturating_sub(2) / 2
}

pub fn rdpcm_of(flag: u32, dir: u32) -> Rdpcm
    ensures { result ≡ rdpcm_of (eqb flag 1) (eqb dir 1) }
{
    if flag == 1 {
        if dir == 1 {
            return Rdpcm::Vertical;
        }
        return Rdpcm::Horizontal;
    }
    Rdpcm::None
}

// Chroma's contexts of a syntax element stand n behind luma's.
pub fn in_chroma(luma: bool, n: usize) -> usize
    ensures { result ≡ in_chroma luma n }
{
    if luma { 0 } else { n }
}

// Whether transform_skip_flag is coded, and explicit_rdpcm_flag.
pub fn skip_coded(p: Params) -> bool
    ensures { result ≡ skip_coded p }
{
    p.skip_allowed && !p.lossless
}

pub fn rdpcm_coded(p: Params, skip: bool) -> bool
    ensures { result ≡ rdpcm_coded p skip }
{
    p.explicit_rdpcm && p.inter && (skip || p.lossless)
}

// Scan 2 swaps the coordinates.
pub fn placed(skip: bool, rdpcm: Rdpcm, scan: u32, x: u32, y: u32) -> Head
    ensures { head_of result ≡ placed_at skip rdpcm (eqb scan 2) x y }
{
    if scan == 2 {
        return Head {
            skip,
            rdpcm,
            x: y,
            y: x,
        };
    }
    Head { skip, rdpcm, x, y }
}
