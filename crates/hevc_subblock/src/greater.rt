// coeff_abs_level_greater1_flag, of the first eight levels at most.
ghost use Rattle.bins.specs.Tags.{context_count};
ghost use Rattle.std.specs.Prelude.{◌≡◌, List, ℕ, ◌+◌, ◌≤◌, ◌<◌, min, ℤ, length};
ghost use Rattle.tables.specs.Decisions.{decisions};
ghost use Rattle.hevc_residual.specs.Wanted.{Wanted};
ghost use Rattle.hevc_residual.specs.SubBlock.{greater1_s};
ghost use Rattle.hevc_elements.specs.Agree.{Reads, from};
ghost use Rattle.hevc_rules.specs.GreaterAgree.{none};
ghost use Rattle.hevc_subblock.specs.GreaterAgree.{SaysGreater};

use bins::state::{Interval, Refusal, Taken};
use bins::tags::CONTEXTS;
use hevc_elements::shapes::context_bin;
use hevc_level_rules::greater::carry_next;

// The bins as a mask, the first in the lowest bit, greater1Ctx behind them, and the state.
#[derive(Clone, Copy)]
pub struct Greater {
    pub mask: u32,
    pub carry: u32,
    pub next: Interval,
}

// n bins, with contexts base + greater1Ctx.
pub fn greater1(
    list: bool,
    table: &[u32; 512],
    contexts: &mut [u8; CONTEXTS],
    base: usize,
    n: u32,
    bytes: &[u8],
    x: Interval,
) -> Result<Greater, Refusal>
    requires { Reads list bytes.now x contexts.old × (table.now ≡ decisions) × (base + 3 < context_count) × (n ≤ 8) }
    ensures { (lv : ℕ → Wanted → ℤ) (ks : List ℕ) → min 8 (length ks) ≡ n → SaysGreater n result contexts.new (from list bytes.now (greater1_s lv base 8 ks none) x contexts.old) }
{
    let mut mask: u32 = 0;
    let mut carry: u32 = 1;
    let mut y = x;
    for j in 0..n {
        let number = base + carry as usize;
        let Taken { value: b, next } = context_bin(list, table, contexts, number, bytes, y)?;
        mask = mask + (b << j);
        carry = carry_next(b, carry);
        y = next;
    }
    Ok(Greater {
        mask,
        carry,
        next: y,
    })
}
