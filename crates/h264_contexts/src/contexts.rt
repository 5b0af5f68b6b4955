// Contexts from 40 pairs m, n and a quantiser to packed bytes (H.264 9.3.1.1).
ghost use Rattle.std.specs.Prelude.{◌≡◌, true, ◌+◌, ◌-◌, ◌*◌, ◌/◌, ◌≤◌};
ghost use Rattle.h264_block.specs.Contexts.{raised, within, initial, pairs_refusal, contexts_after};

use cabac_init::contexts::{clip, pack, quantiser};

fn is_within(v: i32) -> bool
    ensures { result ≡ within v }
{
    if v < -128 {
        return false;
    }
    v <= 127
}

fn raise(v: i32) -> u32
    requires { within v ≡ true }
    ensures { (result ≡ raised v) × (result ≤ 255) }
{
    (v + 128) as u32
}

// floor(m·q/16), m raised by 128, and raised itself by 408: a natural number rounds down, a negative one would not.
fn slope(m: u32, q: u32) -> u32
    requires { (m ≤ 255) × (q ≤ 51) }
    ensures { (result ≡ (m * q + 16 * 408 - 128 * q) / 16) × (result ≤ 2000) }
{
    (m * q + 6528 - 128 * q) / 16
}

// The packed context of a pair at the quantiser q.
fn init(m: i32, n: i32, q: u8) -> u8
    requires { (within m ≡ true) × (within n ≡ true) }
    ensures { result ≡ initial m n q }
{
    let up = raise(m);
    let raised = slope(up, quantiser(q)) + raise(n);
    pack(clip(raised, 536))
}

// 4: not 40 pairs, or a number outside −128 to 127.
fn pairs_refusal(pairs: &[i32]) -> u32
    ensures { result ≡ pairs_refusal pairs.now }
{
    if pairs.len() == 80 && pairs.iter().all(|v| is_within(*v)) {
        return 0;
    }
    4
}

// The lent contexts from the lent pairs, which stand one after the other, m before n.
pub fn init_pairs(contexts: &mut [u8; 40], pairs: &[i32], q: u8) -> u32
    ensures { (result ≡ pairs_refusal pairs.now) × (contexts.new ≡ contexts_after result contexts.old pairs.now q) }
{
    let refused = pairs_refusal(pairs);
    if refused != 0 {
        return refused;
    }
    for (i, context) in contexts.iter_mut().enumerate() {
        *context = init(pairs[2 * i], pairs[2 * i + 1], q);
    }
    0
}
