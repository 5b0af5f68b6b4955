// Places of a sub-block's scan, packed, and the contexts of sig_coeff_flag.
ghost use Rattle.std.specs.Prelude.{◌≡◌, cond, ◌&&◌, [], ◌∷◌, ◌++◌, ◌+◌, ◌≤◌, eqb};
ghost use Rattle.hevc_places.specs.Packing.{Packs, unpacked};
ghost use Rattle.hevc_residual.specs.Layout.{at_sig_coeff, in_chroma};
ghost use Rattle.hevc_places.specs.PlacesAgree.{number_at, Numbers};

use hevc_residual::params::Params;
use hevc_significance::significance::{map_word, near_word, plus};

// Places of a sub-block's scan, four bits each, the first read in the lowest.
#[derive(Clone, Copy)]
pub struct Places {
    pub packed: u64,
    pub count: u32,
}

// Place k behind those read, if its bin is 1. No branch on the bin.
pub fn appended(s: Places, k: u32, b: u32) -> Places
    requires { Packs s × (s.count ≤ 15) × (k ≤ 15) × (b ≤ 1) }
    ensures { Packs result × (unpacked result ≡ cond (eqb b 1) (unpacked s ++ (k ∷ [])) (unpacked s)) × (result.count ≡ s.count + b) }
{
    Places {
        packed: s.packed + (((k * b) as u64) << (4 * s.count)),
        count: s.count + b,
    }
}

// The contexts of a sub-block's flags: that of place 0, and of every other place base and what the word has for it, four bits a place.
#[derive(Clone, Copy)]
pub struct SigNumbers {
    pub word: u64,
    pub base: u32,
    pub first: u32,
}

// The one context of blocks whose transform is skipped (single).
fn skip_number(luma: bool) -> u32
    ensures { result ≡ at_sig_coeff + (42 + in_chroma luma 1) }
{
    if luma { 78 } else { 79 }
}

// The first of a component.
fn least_number(luma: bool) -> u32
    ensures { result ≡ at_sig_coeff + in_chroma luma 27 }
{
    if luma { 36 } else { 63 }
}

// That of place 0, which is the block's first place in the first sub-block alone.
fn first_number(outside: bool, other: u32, least: u32) -> u32
    ensures { result ≡ cond outside other least }
{
    if outside { other } else { least }
}

// Once for a sub-block, so that nothing is looked up from place to place. The word comes last: taken earlier, LLVM lays the reader's loop out worse (2 % on Arm).
pub fn sig_numbers(p: Params, single: bool, neighbours: u32, xs: u32, ys: u32) -> SigNumbers
    requires { (2 ≤ p.log2) × (p.log2 ≤ 5) × (p.scan ≤ 2) × (neighbours ≤ 3) × (xs ≤ 7) × (ys ≤ 7) × (p.log2 ≡ 2 → (xs ≡ 0) × (ys ≡ 0)) }
    ensures { Numbers p single neighbours xs ys result }
{
    if single {
        let number = skip_number(p.luma);
        return SigNumbers {
            word: 0,
            base: number,
            first: number,
        };
    }
    let least = least_number(p.luma);
    if p.log2 == 2 {
        return SigNumbers {
            word: map_word(p.scan),
            base: least,
            first: least,
        };
    }
    let outside = 0 < xs + ys;
    let base = 36 + plus(p.log2, p.luma, p.scan, outside);
    let first = first_number(outside, base + 2, least);
    SigNumbers {
        word: near_word(neighbours, p.scan),
        base,
        first,
    }
}

// The context of the flag at place k.
pub fn number_at(s: SigNumbers, k: u32) -> usize
    requires { k ≤ 15 }
    ensures { result ≡ number_at s k }
{
    if k == 0 {
        return s.first as usize;
    }
    s.base as usize + ((s.word >> (4 * k)) % 16) as usize
}

// The lowest place of a middle sub-block is 1 if no other was.
pub fn inferred(k: u32, infer: bool, count: u32) -> bool
    ensures { result ≡ (eqb k 0 && (infer && eqb count 0)) }
{
    k == 0 && infer && count == 0
}
