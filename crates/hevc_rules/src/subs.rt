// What settles a sub-block: its neighbours, its flag, the places that it begins with, its contexts.
ghost use Rattle.std.specs.Prelude.{◌≡◌, ◌+◌, ◌-◌, ◌*◌, ◌≤◌, ◌<◌, length, ◌&&◌, cond, ◌||◌, not, ltb, eqb};
ghost use Rattle.bins.specs.Engine.{bit_no};
ghost use Rattle.hevc_rules.specs.SubsAgree.{coded_at, near, flag_number, Met};
ghost use Rattle.hevc_residual.specs.Residual.{ctx_set_by};
ghost use Rattle.bins.specs.Tags.{context_count};
ghost use Rattle.hevc_residual.specs.Head.{skip_or_bypass};

use crate::coeffs::Carry;
use hevc_places::places::Places;
use hevc_residual::params::Params;

// 1 if sub-block (xs, ys) lies in the block and is coded.
fn is_coded(coded: &[bool], w: u32, xs: u32, ys: u32) -> u32
    requires { (length coded.now ≡ w * w) × (w ≤ 8) }
    ensures { result ≡ bit_no (coded_at coded.now w xs ys) }
{
    if xs < w && ys < w && coded[(ys * w + xs) as usize] {
        return 1;
    }
    0
}

// Which neighbours are coded: right 1, below 2.
pub fn neighbours_of(coded: &[bool], w: u32, xs: u32, ys: u32) -> u32
    requires { (length coded.now ≡ w * w) × (w ≤ 8) × (xs < w) × (ys < w) }
    ensures { result ≡ near coded.now w xs ys }
{
    is_coded(coded, w, xs + 1, ys) + 2 * is_coded(coded, w, xs, ys + 1)
}

pub fn is_middle(i: u32, last: u32) -> bool
    ensures { result ≡ (ltb 0 i && ltb i last) }
{
    0 < i && i < last
}

// The context of coded_sub_block_flag by its neighbours (9.3.4.2.4).
pub fn flag_number(luma: bool, neighbours: u32) -> usize
    ensures { (result ≡ flag_number luma neighbours) × (result < context_count) }
{
    if luma {
        if neighbours == 0 {
            return 80;
        }
        return 81;
    }
    if neighbours == 0 { 82 } else { 83 }
}

pub fn is_single(p: Params, skip: bool) -> bool
    ensures { result ≡ (p.skip_context && skip_or_bypass p skip) }
{
    p.skip_context && (skip || p.lossless)
}

// Places read before the first flag: the last significant one, in the last sub-block.
pub fn met(i: u32, last: u32, lastin: u32) -> Places
    requires { lastin ≤ 15 }
    ensures { Met i last lastin result }
{
    if i == last {
        return Places {
            packed: lastin as u64,
            count: 1,
        };
    }
    Places {
        packed: 0,
        count: 0,
    }
}

pub fn places_below(i: u32, last: u32, lastin: u32) -> u32
    ensures { result ≡ cond (eqb i last) lastin 16 }
{
    if i == last { lastin } else { 16 }
}

// ctxSet of sub-block number i (9.3.4.2.6): one more if the last sub-block with levels had a greater1.
pub fn ctxset_of(p: Params, i: u32, c: Carry) -> u32
    ensures { (result ≡ ctx_set_by p.luma i c.first c.carry) × (result ≤ 3) }
{
    let set = first_set(p.luma, i);
    if c.first {
        return set;
    }
    if c.carry == 0 { set + 1 } else { set }
}

fn first_set(luma: bool, i: u32) -> u32
    ensures { (result ≡ cond (eqb i 0 || not luma) 0 2) × (result ≤ 2) }
{
    if i == 0 {
        return 0;
    }
    if luma { 2 } else { 0 }
}
