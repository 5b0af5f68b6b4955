// What settles the levels of a sub-block: context numbers, alignment, hiding, the statistic that is used.
ghost use Rattle.std.specs.Prelude.{◌≡◌, ◌+◌, ◌*◌, ◌≤◌, ◌<◌, min, ◌/◌, ◌&&◌, not, cond};
ghost use Rattle.hevc_residual.specs.Layout.{in_chroma, at_greater1, at_greater2};
ghost use Rattle.std.specs.Int.Count.{ones};
ghost use Rattle.hevc_residual.specs.SubBlock.{escape_data_present};
ghost use Rattle.hevc_residual.specs.Head.{rdpcm_flag, skip_or_bypass};
ghost use Rattle.hevc_rules.specs.CoeffsAgree.{may_hide, is_wide, hides};
ghost use Rattle.hevc_places.specs.Packing.{Packs};
ghost use Rattle.bins.specs.Engine.{bit_no};

use hevc_head_rules::head::{Head, in_chroma};
use hevc_places::places::Places;
use hevc_residual::params::{Params, Rdpcm};

// The first of the four contexts of coeff_abs_level_greater1_flag in a context set (9.3.4.2.6).
pub fn greater1_base(luma: bool, ctxset: u32) -> usize
    requires { ctxset ≤ 3 }
    ensures { result ≡ at_greater1 + 4 * ctxset + in_chroma luma 16 }
{
    84 + 4 * ctxset as usize + in_chroma(luma, 16)
}

// The context of coeff_abs_level_greater2_flag: one for each context set (9.3.4.2.7).
pub fn greater2_number(luma: bool, ctxset: u32) -> usize
    requires { ctxset ≤ 3 }
    ensures { result ≡ at_greater2 + ctxset + in_chroma luma 4 }
{
    108 + ctxset as usize + in_chroma(luma, 4)
}

// Of n levels: more than eight, more than one bit set in the greater1 mask, or greater2.
fn is_escape(n: u32, mask: u32, greater2: bool) -> bool
    ensures { result ≡ escape_data_present n (ones mask) greater2 }
{
    8 < n || 1 < u32::count_ones(mask) || greater2
}

// Whether the range is aligned before signs and remainders.
pub fn aligns(p: Params, n: u32, mask: u32, greater2: bool) -> bool
    ensures { result ≡ (p.aligning && escape_data_present n (ones mask) greater2) }
{
    p.aligning && is_escape(n, mask, greater2)
}

fn is_none(r: Rdpcm) -> bool
    ensures { result ≡ not (rdpcm_flag r) }
{
    match r {
        Rdpcm::None => true,
        Rdpcm::Horizontal => false,
        Rdpcm::Vertical => false,
    }
}

// What rules hiding out in a block: lossless, explicit RDPCM, implicit RDPCM with transform skip.
fn may_hide(p: Params, h: Head) -> bool
    ensures { result ≡ may_hide p h.skip h.rdpcm }
{
    !p.lossless && !(h.skip && p.implicit_rdpcm) && is_none(h.rdpcm)
}

// Highest place less lowest exceeds 3.
fn is_wide(s: Places) -> bool
    requires { Packs s × (0 < s.count) }
    ensures { result ≡ is_wide s }
{
    let high = s.packed % 16;
    let low = (s.packed >> (4 * (s.count - 1))) % 16;
    low + 3 < high
}

// 1 if the sign of the lowest place is not coded.
pub fn hidden(p: Params, h: Head, s: Places) -> u32
    requires { Packs s × (0 < s.count) }
    ensures { result ≡ bit_no (hides p h.skip h.rdpcm s) }
{
    u32::from(p.hiding && is_wide(s) && may_hide(p, h))
}

pub fn eight(n: u32) -> u32
    ensures { result ≡ min 8 n }
{
    n.min(8)
}

fn skip_or_bypass(p: Params, skip: bool) -> usize
    ensures { result ≡ bit_no (skip_or_bypass p skip) }
{
    usize::from(skip || p.lossless)
}

// sb_type (9.3.3.11): which of the statistics the block's remainders use.
pub fn sb_type(p: Params, skip: bool) -> usize
    ensures { result ≡ 2 * bit_no p.luma + bit_no (skip_or_bypass p skip) }
{
    2 * usize::from(p.luma) + skip_or_bypass(p, skip)
}

// cRiceParam of a sub-block's first remainder (9.3.3.11).
pub fn rice_start(p: Params, stat: u8) -> u32
    ensures { result ≡ cond p.persistent (stat / 4) 0 }
{
    if p.persistent { (stat / 4) as u32 } else { 0 }
}
