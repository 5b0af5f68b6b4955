// The scale's syntax from either source: up to four ones, then a sign.
ghost use Rattle.std.specs.Prelude.{◌≡◌, ◌≤◌, eqb};
ghost use Rattle.tables.specs.Decisions.{decisions};
ghost use Rattle.hevc_residual.specs.Remainder.{signed};
ghost use Rattle.hevc_elements.specs.Agree.{Reads, from};
ghost use Rattle.hevc_cross.specs.Scale.{magnitude, scale_s};
ghost use Rattle.hevc_scale_syntax.specs.Agree.{SaysScale, nothing};

use crate::layout::{SIGN, VALUE};
use bins::state::{Interval, Refusal, Taken};
use bins::tags::CONTEXTS;
use hevc_elements::shapes::{context_bin, prefix};

// A scale, and the interval behind it.
#[derive(Clone, Copy)]
pub struct Scaled {
    pub scale: i32,
    pub next: Interval,
}

// The magnitude of a value that is not 0.
fn power(v: u32) -> u32
    requires { (1 ≤ v) × (v ≤ 4) }
    ensures { result ≡ magnitude v }
{
    1 << (v - 1)
}

// The scale of a value that is not 0.
fn signed_of(v: u32, sign: u32) -> i32
    requires { (1 ≤ v) × (v ≤ 4) }
    ensures { result ≡ signed (eqb sign 1) (magnitude v) }
{
    let m = power(v);
    if sign == 1 {
        return 0 - m as i32;
    }
    m as i32
}

pub fn read_scale(
    list: bool,
    table: &[u32; 512],
    contexts: &mut [u8; CONTEXTS],
    component: usize,
    bytes: &[u8],
    x: Interval,
) -> Result<Scaled, Refusal>
    requires { Reads list bytes.now x contexts.old × (component ≤ 1) × (table.now ≡ decisions) }
    ensures { SaysScale result contexts.new (from list bytes.now (scale_s nothing component) x contexts.old) }
{
    let first = VALUE + 4 * component;
    let Taken { value: v, next: y } = prefix(list, table, contexts, first, 0, 4, bytes, x)?;
    if v == 0 {
        return Ok(Scaled { scale: 0, next: y });
    }
    let Taken { value: b, next } = context_bin(list, table, contexts, SIGN + component, bytes, y)?;
    Ok(Scaled {
        scale: signed_of(v, b),
        next,
    })
}
