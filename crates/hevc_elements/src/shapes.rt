// The shapes that syntax elements are made of: a bin with a context, a flag that may not be coded, a prefix of ones.
ghost use Rattle.std.specs.Prelude.{◌≡◌, Bool, List, ℕ, ◌+◌, ◌≤◌, ◌<◌};
ghost use Rattle.tables.specs.Decisions.{decisions};
ghost use Rattle.bins.specs.Syn.{bin, done};
ghost use Rattle.bins.specs.Readers.{flag_if, ones_s, prefix_s};
ghost use Rattle.hevc_residual.specs.Wanted.{Wanted};
ghost use Rattle.bins.specs.Sources.{Readable};
ghost use Rattle.bins.specs.Tags.{context_count};
ghost use Rattle.hevc_elements.specs.Agree.{Reads, from, Says, SaysFlag};

use bins::state::{Interval, Step, Taken};
use bins::tags::CONTEXTS;

// A bin with the context of a number.
pub fn context_bin(
    list: bool,
    table: &[u32; 512],
    contexts: &mut [u8; CONTEXTS],
    number: usize,
    bytes: &[u8],
    x: Interval,
) -> Step
    requires { Reads list bytes.now x contexts.old × (number < context_count) × (table.now ≡ decisions) }
    ensures { (w : Wanted → Bool) → SaysFlag result contexts.new (from list bytes.now (bin number w done) x contexts.old) }
{
    tree_shapes::context_bin(list, table, contexts, number, bytes, x)
}

// A flag where it is coded, else 0.
pub fn flag_if(
    coded: bool,
    list: bool,
    table: &[u32; 512],
    contexts: &mut [u8; CONTEXTS],
    number: usize,
    bytes: &[u8],
    x: Interval,
) -> Step
    requires { Reads list bytes.now x contexts.old × (number < context_count) × (table.now ≡ decisions) }
    ensures { (w : Wanted → Bool) → SaysFlag result contexts.new (from list bytes.now (flag_if coded number w) x contexts.old) }
{
    if coded {
        return context_bin(list, table, contexts, number, bytes, x);
    }
    Ok(Taken { value: 0, next: x })
}

// Ones up to a greatest count, left at the first zero: bins with contexts base + (count shifted right by shift).
pub fn prefix(
    list: bool,
    table: &[u32; 512],
    contexts: &mut [u8; CONTEXTS],
    base: usize,
    shift: u32,
    most: u32,
    bytes: &[u8],
    x: Interval,
) -> Step
    requires { Reads list bytes.now x contexts.old × (base + most ≤ context_count) × (most ≤ 9) × (shift ≤ 3) × (table.now ≡ decisions) }
    ensures { (w : ℕ → Wanted → Bool) → Says result contexts.new (from list bytes.now (prefix_s base shift most 0 w) x contexts.old) }
{
    let mut y = x;
    for g in 0..most {
        let number = base + (g >> shift) as usize;
        let Taken { value: b, next } = context_bin(list, table, contexts, number, bytes, y)?;
        if b == 0 {
            return Ok(Taken { value: g, next });
        }
        y = next;
    }
    Ok(Taken {
        value: most,
        next: y,
    })
}

// The same with bypass bins.
pub fn ones(list: bool, most: u32, bytes: &[u8], x: Interval) -> Step
    requires { Readable list bytes.now x × (most ≤ 31) }
    ensures { (w : ℕ → Wanted → Bool) (contexts : List ℕ) → Says result contexts (from list bytes.now (ones_s most 0 w) x contexts) }
{
    tree_shapes::ones(list, most, bytes, x)
}
