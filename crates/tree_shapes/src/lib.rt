// The shapes that the elements of any syntax are made of: a bin with a context, and ones counted.
#![tactic(auto)]

ghost use Rattle.std.specs.Prelude.{◌≡◌, List, ℕ, ◌≤◌, ◌<◌, length};
ghost use Rattle.tables.specs.Decisions.{decisions};
ghost use Rattle.bins.specs.Sources.{Readable};
ghost use Rattle.trees.specs.Shapes.{first_then};
ghost use Rattle.trees.specs.Agree.{Reads, from, Says, SaysFlag};
ghost use Rattle.tree_shapes.specs.Plain.{bin_p, ones_p, count_p};

use bin_steps::steps::{decode_bin, decode_bypass};
use bins::state::{Interval, Step, Taken};

// A bin with the context of a number, of however many are lent.
pub fn context_bin(
    list: bool,
    table: &[u32; 512],
    contexts: &mut [u8],
    number: usize,
    bytes: &[u8],
    x: Interval,
) -> Step
    requires { Reads list bytes.now x contexts.old × (number < length contexts.old) × (number < 32768) × (table.now ≡ decisions) }
    ensures { SaysFlag result contexts.new (from list bytes.now (bin_p number) x contexts.old) }
{
    decode_bin(list, table, &mut contexts[number], number as u32, bytes, x)
}

// Ones up to a greatest count, left at the first zero: the first bin has one context, the others another.
pub fn count(
    list: bool,
    table: &[u32; 512],
    contexts: &mut [u8],
    first: usize,
    later: usize,
    most: u32,
    bytes: &[u8],
    x: Interval,
) -> Step
    requires { Reads list bytes.now x contexts.old × (first < length contexts.old) × (later < length contexts.old) × (length contexts.old ≤ 32768) × (most ≤ 31) × (table.now ≡ decisions) }
    ensures { Says result contexts.new (from list bytes.now (count_p (first_then first later) most 0) x contexts.old) }
{
    let mut y = x;
    let mut number = first;
    for g in 0..most {
        let Taken { value: b, next } = context_bin(list, table, contexts, number, bytes, y)?;
        if b == 0 {
            return Ok(Taken { value: g, next });
        }
        y = next;
        number = later;
    }
    Ok(Taken {
        value: most,
        next: y,
    })
}

// The same with bypass bins.
pub fn ones(list: bool, most: u32, bytes: &[u8], x: Interval) -> Step
    requires { Readable list bytes.now x × (most ≤ 31) }
    ensures { (contexts : List ℕ) → Says result contexts (from list bytes.now (ones_p most 0) x contexts) }
{
    let mut y = x;
    for g in 0..most {
        let Taken { value: b, next } = decode_bypass(list, bytes, y)?;
        if b == 0 {
            return Ok(Taken { value: g, next });
        }
        y = next;
    }
    Ok(Taken {
        value: most,
        next: y,
    })
}
