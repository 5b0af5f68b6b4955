// Figures over blocks of one size: for every place a count, a sum and the greatest, lent as three arrays; a tally for every number; and the totals.
ghost use Rattle.std.specs.Prelude.{◌≡◌, List, ℕ, ◌+◌, ◌≤◌, min, max, length, nat_abs};
ghost use Rattle.counting.specs.Count.{nonzero, updated};
ghost use Rattle.figures.specs.Figures.{level_at};
ghost use Rattle.figures.specs.Entries.{most32, most64, block_refusal, number_refusal, add_block, add_refusal};
ghost use Rattle.figures.specs.Agree.{held, after_of};

use figures::add::{Added, Totals};
use hevc_sizes::sizes::area_of;
use level_sizes::sizes::magnitude;

// ---- sums that stop, which no figures of a list do

fn one_if(m: u32) -> u32
    ensures { result ≡ min 1 m }
{
    m.min(1)
}

pub fn wide(x: u32) -> u64
    ensures { (result ≡ x) × (result ≤ 4294967295) }
{
    x as u64
}

pub fn larger(a: u32, b: u32) -> u32
    ensures { result ≡ max a b }
{
    a.max(b)
}

pub fn capped32(a: u32, b: u32) -> u32
    ensures { result ≡ min most32 (a + b) }
{
    a.saturating_add(b)
}

pub fn capped64(a: u64, b: u64) -> u64
    ensures { result ≡ min most64 (a + b) }
{
    a.saturating_add(b)
}

// A tally, one higher.
fn tallied(t: u32) -> u32
    ensures { result ≡ min 65535 (t + 1) }
{
    if t < 65535 { t + 1 } else { 65535 }
}

// ---- an accepted block

// 4, 23
fn block_refusal(t: Totals, size: u32, levels: &[i32]) -> u32
    ensures { result ≡ block_refusal t size levels.now }
{
    if t.log2 != size {
        return 4;
    }
    if t.log2 < 2 {
        return 4;
    }
    if 5 < t.log2 {
        return 4;
    }
    if levels.len() < area_of(t.log2) {
        return 4;
    }
    if 4096 <= t.accepted {
        return 23;
    }
    0
}

// The first n places.
fn add_levels(
    blocks: &mut [u32; 1024],
    sums: &mut [u64; 1024],
    greatests: &mut [u32; 1024],
    levels: &[i32],
    n: usize,
)
    requires { (n ≤ length levels.now) × (n ≤ 1024) }
    ensures { (blocks.new ≡ updated 0 n (λ place x. min most32 (x + nonzero (level_at levels.now place))) blocks.old) × (sums.new ≡ updated 0 n (λ place x. min most64 (x + nat_abs (level_at levels.now place))) sums.old) × (greatests.new ≡ updated 0 n (λ place x. max x (nat_abs (level_at levels.now place))) greatests.old) }
{
    for i in 0..n {
        let m = magnitude(levels[i]);
        let b = capped32(blocks[i], one_if(m));
        let s = capped64(sums[i], wide(m));
        let g = larger(greatests[i], m);
        blocks[i] = b;
        sums[i] = s;
        greatests[i] = g;
    }
}

pub fn add_block(
    blocks: &mut [u32; 1024],
    sums: &mut [u64; 1024],
    greatests: &mut [u32; 1024],
    totals: Totals,
    size: u32,
    levels: &[i32],
    past: u32,
) -> Added
    ensures { (tallies : List ℕ) → after_of result blocks.new sums.new greatests.new tallies ≡ add_block (held totals blocks.old sums.old greatests.old tallies) size levels.now past }
{
    let number = block_refusal(totals, size, levels);
    if number != 0 {
        return Added { number, totals };
    }
    add_levels(blocks, sums, greatests, levels, area_of(totals.log2));
    let after = Totals {
        log2: totals.log2,
        accepted: totals.accepted + 1,
        past: capped64(totals.past, wide(past)),
    };
    Added {
        number: 0,
        totals: after,
    }
}

// ---- the number of a refused block

// 4
pub fn number_refusal(number: u32) -> u32
    ensures { result ≡ number_refusal number }
{
    if number < 1 {
        return 4;
    }
    if 24 < number {
        return 4;
    }
    0
}

pub fn add_refusal(tallies: &mut [u32; 24], totals: Totals, number: u32) -> Added
    ensures { (blocks sums greatests : List ℕ) → after_of result blocks sums greatests tallies.new ≡ add_refusal (held totals blocks sums greatests tallies.old) number }
{
    let n = number_refusal(number);
    if n != 0 {
        return Added { number: n, totals };
    }
    let at = (number - 1) as usize;
    let t = tallied(tallies[at]);
    tallies[at] = t;
    Added { number: 0, totals }
}
