// coeff_abs_level_remaining (H.265 9.3.3.11): how it is read.
ghost use Rattle.std.specs.Prelude.{◌≡◌, List, ℕ, ◌+◌, ◌≤◌, min};
ghost use Rattle.bins.specs.Sources.{Readable};
ghost use Rattle.hevc_residual.specs.Wanted.{Wanted};
ghost use Rattle.hevc_residual.specs.Remainder.{egk_s, limited_s, remainder_s};
ghost use Rattle.hevc_elements.specs.Agree.{from};
ghost use Rattle.hevc_magnitudes.specs.Most.{most};
ghost use Rattle.hevc_magnitudes.specs.Escape.{escape_s};
ghost use Rattle.hevc_remainder.specs.RemainderAgree.{SaysCapped};

use bin_steps::seldom;
use bin_steps::steps::decode_bypass_bits;
use bins::state::{Interval, Refusal, Step, Taken};
use exp_golomb::whole_of;
use hevc_elements::shapes::ones;
use hevc_magnitudes::magnitudes::{escape_length, range_bits};
use hevc_residual::params::Params;

// A whole value above what any level in range has is as good as that: 8 follows either way.
fn capped(whole: u64) -> u32
    ensures { result ≡ min whole most }
{
    if whole < 1073741824 {
        whole as u32
    } else {
        1073741824
    }
}

// Exp-Golomb of order k; lengths that no level in range has are 8, given behind the prefix.
fn exp_golomb(list: bool, k: u32, bytes: &[u8], x: Interval) -> Step
    requires { Readable list bytes.now x × (k ≤ 22) }
    ensures { (v : Wanted → ℕ) (contexts : List ℕ) → SaysCapped result contexts (from list bytes.now (egk_s k v) x contexts) }
{
    let Taken { value: n, next: y } = ones(list, 31, bytes, x)?;
    if 31 <= n {
        return Err(Refusal { number: 8, at: y });
    }
    if 32 <= n + k {
        return Err(Refusal { number: 8, at: y });
    }
    let suffix = seldom::decode_bypass_bits(list, bytes, y, n + k)?;
    Ok(Taken {
        value: capped(whole_of(n, k, suffix.value)),
        next: suffix.next,
    })
}

// The limited form of Exp-Golomb, under extended precision.
fn limited(list: bool, t: u32, k: u32, bytes: &[u8], x: Interval) -> Step
    requires { Readable list bytes.now x × (15 ≤ t) × (t ≤ 22) × (k ≤ 22) }
    ensures { (v : Wanted → ℕ) (contexts : List ℕ) → SaysCapped result contexts (from list bytes.now (limited_s t k v) x contexts) }
{
    let Taken { value: n, next: y } = ones(list, 28 - t, bytes, x)?;
    let length = escape_length(t, n, k);
    if 32 < length {
        return Err(Refusal { number: 8, at: y });
    }
    let suffix = seldom::decode_bypass_bits(list, bytes, y, length)?;
    Ok(Taken {
        value: capped(whole_of(n, k, suffix.value)),
        next: suffix.next,
    })
}

// What follows four ones: rare, so its suffix is read by a call.
fn escape(list: bool, p: Params, rice: u32, bytes: &[u8], x: Interval) -> Step
    requires { Readable list bytes.now x × (p.depth ≤ 16) × (rice ≤ 21) }
    ensures { (v : Wanted → ℕ) (contexts : List ℕ) → SaysCapped result contexts (from list bytes.now (escape_s p (rice + 1) v) x contexts) }
{
    if p.extended {
        return limited(list, range_bits(p), rice + 1, bytes, x);
    }
    exp_golomb(list, rice + 1, bytes, x)
}

// Up to four ones (9.3.3.2, truncated Rice); under four, rice suffix bits, else an escape.
pub fn remainder(list: bool, p: Params, rice: u32, bytes: &[u8], x: Interval) -> Step
    requires { Readable list bytes.now x × (p.depth ≤ 16) × (rice ≤ 21) }
    ensures { (v : Wanted → ℕ) (contexts : List ℕ) → SaysCapped result contexts (from list bytes.now (remainder_s p rice v) x contexts) }
{
    let Taken { value: q, next: y } = ones(list, 4, bytes, x)?;
    if q < 4 {
        let suffix = decode_bypass_bits(list, bytes, y, rice)?;
        return Ok(Taken {
            value: (q << rice) + suffix.value,
            next: suffix.next,
        });
    }
    let more = escape(list, p, rice, bytes, y)?;
    Ok(Taken {
        value: capped((4u64 << rice) + more.value as u64),
        next: more.next,
    })
}
