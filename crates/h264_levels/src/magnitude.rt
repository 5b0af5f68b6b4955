// A magnitude less 1: ones with contexts, then Exp-Golomb in bypass bins.
ghost use Rattle.std.specs.Prelude.{◌≡◌, List, ℕ, ◌+◌, ◌≤◌, ◌<◌, ℤ};
ghost use Rattle.tables.specs.Decisions.{decisions};
ghost use Rattle.bins.specs.Sources.{Readable};
ghost use Rattle.trees.specs.Agree.{Reads, from, Says};
ghost use Rattle.trees.specs.Shapes.{golomb_s};
ghost use Rattle.h264_block.specs.Block.{magnitude_s};

use bin_steps::steps::decode_bypass_bits;
use bins::state::{Interval, Refusal, Step, Taken};
use h264_numbers::numbers::{first_number, later_number};
use tree_shapes::{count, ones};

// Exp-Golomb of order 0; a prefix of the greatest length is 8, given behind it.
fn exp_golomb(list: bool, most: u32, bytes: &[u8], x: Interval) -> Step
    requires { Readable list bytes.now x × (most ≤ 16) }
    ensures { (v : List ℤ → ℕ) (contexts : List ℕ) → Says result contexts (from list bytes.now (golomb_s most 0 v) x contexts) }
{
    let Taken { value: n, next: y } = ones(list, most, bytes, x)?;
    if most <= n {
        return Err(Refusal { number: 8, at: y });
    }
    let Taken {
        value: suffix,
        next,
    } = decode_bypass_bits(list, bytes, y, n)?;
    Ok(Taken {
        value: (1 << n) - 1 + suffix,
        next,
    })
}

// Behind so many magnitudes of 1 and so many above 1.
pub fn magnitude(
    list: bool,
    table: &[u32; 512],
    contexts: &mut [u8; 40],
    ones: u32,
    bigs: u32,
    bytes: &[u8],
    x: Interval,
) -> Step
    requires { Reads list bytes.now x contexts.old × (table.now ≡ decisions) }
    ensures { (v : List ℤ → ℕ) → Says result contexts.new (from list bytes.now (magnitude_s ones bigs v) x contexts.old) }
{
    let first = first_number(ones, bigs);
    let later = later_number(bigs);
    let Taken { value: q, next: y } = count(list, table, contexts, first, later, 14, bytes, x)?;
    if q < 14 {
        return Ok(Taken { value: q, next: y });
    }
    let Taken { value: v, next } = exp_golomb(list, 16, bytes, y)?;
    Ok(Taken {
        value: 14 + v,
        next,
    })
}
