// A kept block: n·n levels, a record for each 4x4 sub-block (counts and sums), and one for the whole.
ghost use Rattle.std.specs.Prelude.{◌≡◌, ◌+◌, ◌*◌, ◌^◌, ◌≤◌, ◌<◌, min, length};
ghost use Rattle.hevc_summary.specs.Summary.{area, subs, cell, sub_of, count_in, sum_in, sub_most, Small};
ghost use Rattle.hevc_summary.specs.Entries.{form_refusal, whole_from, fresh_counts, fresh_sums};

use hevc_sizes::sizes::{area_of, grid};
use hevc_summary::kept::{Form, Tally, Whole};
use level_sizes::sizes::magnitude;

// ---- places and sub-blocks

// n
fn side_of(log2: u32) -> usize
    requires { (2 ≤ log2) × (log2 ≤ 5) }
    ensures { result ≡ 2 ^ log2 }
{
    1 << log2
}

// Where place k of sub-block s stands.
fn cell(log2: u32, s: usize, k: usize) -> usize
    requires { (2 ≤ log2) × (log2 ≤ 5) × (s < subs log2) × (k < 16) }
    ensures { (result ≡ cell log2 s k) × (result < area log2) }
{
    let n = side_of(log2);
    let w = n / 4;
    (4 * (s / w) + k / 4) * n + (4 * (s % w) + k % 4)
}

// The sub-block in which a place stands.
pub fn sub_of(log2: u32, place: usize) -> usize
    requires { (2 ≤ log2) × (log2 ≤ 5) × (place < area log2) }
    ensures { (result ≡ sub_of log2 place) × (result < subs log2) }
{
    let n = side_of(log2);
    let w = n / 4;
    place / n / 4 * w + place % n / 4
}

// ---- counting

// A fresh count of sub-block s.
pub fn count_in(levels: &[i32], log2: u32, s: usize) -> Tally
    requires { (2 ≤ log2) × (log2 ≤ 5) × (s < subs log2) × (area log2 ≤ length levels.now) }
    ensures { (result.count ≡ count_in log2 levels.now s) × (result.sum ≡ sum_in log2 levels.now s) × (result.sum ≤ sub_most) }
{
    let mut count: u32 = 0;
    let mut sum: u64 = 0;
    for k in 0..16 {
        let at = cell(log2, s, k);
        let m = magnitude(levels[at]);
        count += m.min(1);
        sum += m as u64;
    }
    Tally { count, sum }
}

// Bit s of the map.
fn bit_of(s: usize, count: u32) -> u64
    requires { s < 64 }
    ensures { result ≡ 2 ^ s * min 1 count }
{
    if count == 0 { 0 } else { 1u64 << s }
}

// The record of the whole, from those of the sub-blocks.
pub fn whole_of(counts: &[u32], sums: &[u64], log2: u32) -> Whole
    requires { (2 ≤ log2) × (log2 ≤ 5) × (64 ≤ length counts.now) × (64 ≤ length sums.now) }
    ensures { result ≡ whole_from log2 counts.now sums.now }
{
    let n = grid(log2);
    let mut count: u64 = 0;
    let mut sum: u64 = 0;
    let mut map: u64 = 0;
    for s in 0..n {
        let c = counts[s];
        count += u64::from(c);
        sum = sum.saturating_add(sums[s]);
        map += bit_of(s, c);
    }
    Whole { count, sum, map }
}

// Every record anew.
pub fn count_all(levels: &[i32], counts: &mut [u32; 64], sums: &mut [u64; 64], log2: u32) -> Whole
    requires { (2 ≤ log2) × (log2 ≤ 5) × (area log2 ≤ length levels.now) }
    ensures { (counts.new ≡ fresh_counts log2 levels.now counts.old) × (sums.new ≡ fresh_sums log2 levels.now sums.old) × (result ≡ whole_from log2 counts.new sums.new) × Small log2 levels.now × (64 ≤ length counts.new) × (64 ≤ length sums.new) }
{
    let n = grid(log2);
    for s in 0..n {
        let t = count_in(levels, log2, s);
        counts[s] = t.count;
        sums[s] = t.sum;
    }
    whole_of(counts, sums, log2)
}

// ---- refusals

// 4
pub fn form_refusal(f: Form, levels: &[i32]) -> u32
    ensures { result ≡ form_refusal f levels.now }
{
    if f.log2 < 2 {
        return 4;
    }
    if 5 < f.log2 {
        return 4;
    }
    if f.bits < 15 {
        return 4;
    }
    if 22 < f.bits {
        return 4;
    }
    if levels.len() < area_of(f.log2) {
        return 4;
    }
    0
}
