// What stands before the sub-blocks: transform_skip_flag, explicit RDPCM, the last significant position.
ghost use Rattle.std.specs.Prelude.{◌≡◌, ℕ, ◌+◌, ◌*◌, ◌≤◌};
ghost use Rattle.tables.specs.Decisions.{decisions};
ghost use Rattle.hevc_residual.specs.Wanted.{Wanted, outer_of, inner_of};
ghost use Rattle.hevc_residual.specs.Head.{last_prefix, head_s};
ghost use Rattle.hevc_elements.specs.Agree.{Reads, from, Says};
ghost use Rattle.hevc_head.specs.HeadAgree.{SaysHead};

use bin_steps::seldom::decode_bypass_bits_if_any;
use bins::state::{Interval, Refusal, Step};
use bins::tags::CONTEXTS;
use hevc_elements::shapes::{flag_if, prefix};
use hevc_head_rules::head::{
    Head, in_chroma, least, placed, rdpcm_coded, rdpcm_of, skip_coded, suffix_bits,
};
use hevc_residual::params::Params;

// The head, and the state behind it.
#[derive(Clone, Copy)]
pub struct Headed {
    pub head: Head,
    pub next: Interval,
}

// The prefix of one coordinate of the last position (9.3.4.2.3); its contexts begin at first, 0 for x and 18 for y.
fn last_prefix(
    list: bool,
    table: &[u32; 512],
    contexts: &mut [u8; CONTEXTS],
    first: usize,
    luma: bool,
    log2: u32,
    bytes: &[u8],
    x: Interval,
) -> Step
    requires { Reads list bytes.now x contexts.old × (first ≤ 18) × (2 ≤ log2) × (log2 ≤ 5) × (table.now ≡ decisions) }
    ensures { (v : Wanted → ℕ) → Says result contexts.new (from list bytes.now (last_prefix first luma log2 v) x contexts.old) }
{
    let most = 2 * log2 - 1;
    if luma {
        let base = first + (3 * (log2 - 2) + (log2 - 1) / 4) as usize;
        return prefix(list, table, contexts, base, (log2 + 1) / 4, most, bytes, x);
    }
    prefix(list, table, contexts, first + 15, log2 - 2, most, bytes, x)
}

// Both prefixes come before the suffixes.
pub fn read_head(
    list: bool,
    table: &[u32; 512],
    contexts: &mut [u8; CONTEXTS],
    bytes: &[u8],
    p: Params,
    x: Interval,
) -> Result<Headed, Refusal>
    requires { Reads list bytes.now x contexts.old × (2 ≤ p.log2) × (p.log2 ≤ 5) × (table.now ≡ decisions) }
    ensures { SaysHead result contexts.new (from list bytes.now (head_s p (outer_of p) (inner_of p)) x contexts.old) }
{
    let chroma = in_chroma(p.luma, 1);
    let skip = flag_if(skip_coded(p), list, table, contexts, 114 + chroma, bytes, x)?;
    let coded = rdpcm_coded(p, skip.value == 1);
    let explicit = flag_if(coded, list, table, contexts, 116 + chroma, bytes, skip.next)?;
    let dir = flag_if(
        explicit.value == 1,
        list,
        table,
        contexts,
        118 + chroma,
        bytes,
        explicit.next,
    )?;
    let gx = last_prefix(list, table, contexts, 0, p.luma, p.log2, bytes, dir.next)?;
    let gy = last_prefix(list, table, contexts, 18, p.luma, p.log2, bytes, gx.next)?;
    let sx = decode_bypass_bits_if_any(list, bytes, gy.next, suffix_bits(gx.value))?;
    let sy = decode_bypass_bits_if_any(list, bytes, sx.next, suffix_bits(gy.value))?;
    let head = placed(
        skip.value == 1,
        rdpcm_of(explicit.value, dir.value),
        p.scan,
        least(gx.value) + sx.value,
        least(gy.value) + sy.value,
    );
    let next = sy.next;
    Ok(Headed { head, next })
}
