// Contexts: from an initial value and a quantiser to a packed byte (H.265 9.3.2.2).
ghost use Rattle.std.specs.Prelude.{◌≡◌, ◌-◌, ◌/◌, ◌≤◌, min, max};
ghost use Rattle.cabac.specs.Contexts.{slope_raised, packed, initial};
ghost use Rattle.cabac.specs.Entries.{values_refusal, contexts_after, statistics_after};

use bins::tags::CONTEXTS;

// A quantiser above 51 counts as 51.
pub fn quantiser(q: u8) -> u32
    ensures { result ≡ min q 51 }
{
    (q as u32).min(51)
}

// floor(m·q/16), m = 5·(v div 16) − 45, raised by 144: a natural number rounds down, a negative one would not.
fn slope(v: u32, q: u32) -> u32
    requires { (v ≤ 255) × (q ≤ 51) }
    ensures { result ≡ slope_raised v q / 16 }
{
    (5 * (v / 16) * q + 2304 - 45 * q) / 16
}

// Held to 1..126, with what it was raised by taken off.
pub fn clip(raised: u32, by: u32) -> u32
    requires { by ≤ 536 }
    ensures { result ≡ min 126 (max 1 (raised - by)) }
{
    raised.saturating_sub(by).max(1).min(126)
}

pub fn pack(p: u32) -> u8
    requires { p ≤ 126 }
    ensures { result ≡ packed p }
{
    if 64 <= p { p as u8 } else { (63 - p) as u8 }
}

// The packed context of the value v at the quantiser q.
pub fn init(v: u8, q: u8) -> u8
    ensures { result ≡ initial v q }
{
    let value = v as u32;
    let raised = slope(value, quantiser(q)) + 8 * (value % 16);
    pack(clip(raised, 160))
}

// The lent contexts from the lent values; the statistics start at 0. The number: 4 unless there is a value for each context.
pub fn init_contexts(
    contexts: &mut [u8; CONTEXTS],
    statistics: &mut [u8; 4],
    values: &[u8],
    q: u8,
) -> u32
    ensures { (result ≡ values_refusal values.now) × (contexts.new ≡ contexts_after result contexts.old values.now q) × (statistics.new ≡ statistics_after result statistics.old) }
{
    if values.len() != CONTEXTS {
        return 4;
    }
    for (i, value) in values.iter().enumerate() {
        contexts[i] = init(*value, q);
    }
    *statistics = [0u8; 4];
    0
}
