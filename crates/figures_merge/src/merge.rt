// Figures over blocks of one size: for every place a count, a sum and the greatest, lent as three arrays; a tally for every number; and the totals.
ghost use Rattle.std.specs.Prelude.{◌≡◌, ◌+◌, ◌≤◌, min, max, get_or};
ghost use Rattle.counting.specs.Count.{updated};
ghost use Rattle.figures.specs.Entries.{most32, most64, merge_refusal, merge};
ghost use Rattle.figures.specs.Agree.{held, after_of};

use figures::add::{Added, Totals};
use figures_add::add::{capped32, capped64, larger, wide};
use hevc_sizes::sizes::area_of;

// ---- two figures put together

// 4, 23
fn merge_refusal(t: Totals, u: Totals) -> u32
    ensures { result ≡ merge_refusal t u }
{
    if t.log2 != u.log2 {
        return 4;
    }
    if t.log2 < 2 {
        return 4;
    }
    if 5 < t.log2 {
        return 4;
    }
    if 4096 < wide(t.accepted) + wide(u.accepted) {
        return 23;
    }
    0
}

// The first n places.
fn join_places(
    blocks: &mut [u32; 1024],
    sums: &mut [u64; 1024],
    greatests: &mut [u32; 1024],
    b: &[u32; 1024],
    s: &[u64; 1024],
    g: &[u32; 1024],
    n: usize,
)
    requires { n ≤ 1024 }
    ensures { (blocks.new ≡ updated 0 n (λ place x. min most32 (x + get_or b.now place 0)) blocks.old) × (sums.new ≡ updated 0 n (λ place x. min most64 (x + get_or s.now place 0)) sums.old) × (greatests.new ≡ updated 0 n (λ place x. max x (get_or g.now place 0)) greatests.old) }
{
    for i in 0..n {
        let x = capped32(blocks[i], b[i]);
        let y = capped64(sums[i], s[i]);
        let z = larger(greatests[i], g[i]);
        blocks[i] = x;
        sums[i] = y;
        greatests[i] = z;
    }
}

// Two tallies together.
fn tallied_both(t: u32, u: u32) -> u32
    ensures { result ≡ min 65535 (t + u) }
{
    t.saturating_add(u).min(65535)
}

fn join_tallies(tallies: &mut [u32; 24], k: &[u32; 24])
    ensures { tallies.new ≡ updated 0 24 (λ i x. min 65535 (x + get_or k.now i 0)) tallies.old }
{
    for i in 0..24 {
        let t = tallied_both(tallies[i], k[i]);
        tallies[i] = t;
    }
}

pub fn merge(
    blocks: &mut [u32; 1024],
    sums: &mut [u64; 1024],
    greatests: &mut [u32; 1024],
    tallies: &mut [u32; 24],
    totals: Totals,
    b: &[u32; 1024],
    s: &[u64; 1024],
    g: &[u32; 1024],
    k: &[u32; 24],
    other: Totals,
) -> Added
    ensures { after_of result blocks.new sums.new greatests.new tallies.new ≡ merge (held totals blocks.old sums.old greatests.old tallies.old) (held other b.now s.now g.now k.now) }
{
    let number = merge_refusal(totals, other);
    if number != 0 {
        return Added { number, totals };
    }
    join_places(blocks, sums, greatests, b, s, g, area_of(totals.log2));
    join_tallies(tallies, k);
    let after = Totals {
        log2: totals.log2,
        accepted: totals.accepted + other.accepted,
        past: capped64(totals.past, other.past),
    };
    Added {
        number: 0,
        totals: after,
    }
}
