// The levels at the significant places of a sub-block: greater1, greater2, alignment, signs, remainders.
ghost use Rattle.std.specs.Prelude.{◌≡◌, ◌≤◌, ◌<◌, length};
ghost use Rattle.tables.specs.Decisions.{decisions};
ghost use Rattle.bins.specs.Sources.{Readable};
ghost use Rattle.hevc_residual.specs.Wanted.{area, inner_of};
ghost use Rattle.hevc_residual.specs.Remainder.{log2_transform_range};
ghost use Rattle.hevc_residual.specs.Scan.{spot};
ghost use Rattle.hevc_scans.specs.Pairs.{pairs_of};
ghost use Rattle.hevc_elements.specs.Agree.{Reads};
ghost use Rattle.hevc_places.specs.Packing.{Packs};
ghost use Rattle.hevc_rules.specs.LevelsAgree.{Site};
ghost use Rattle.hevc_residual.specs.Limits.{Statistics};
ghost use Rattle.hevc_rules.specs.CoeffsAgree.{Carries};
ghost use Rattle.hevc_subblock.specs.CoeffsAgree.{SaysCoeffs, aligned_if};
ghost use Rattle.hevc_stored.specs.StoredAgree.{Keeps};
ghost use Rattle.hevc_subblock.specs.CarriedKeeps.{KeepsOn};

use crate::greater::greater1;
use bin_steps::steps::{align_bypass, decode_bypass_bits};
use bins::state::{Interval, Refusal, Step, Taken};
use bins::tags::CONTEXTS;
use hevc_coeff_rules::coeffs::{
    aligns, eight, greater1_base, greater2_number, hidden, rice_start, sb_type,
};
use hevc_elements::shapes::flag_if;
use hevc_head_rules::head::Head;
use hevc_levels::levels::read_levels;
use hevc_places::places::Places;
use hevc_residual::params::Params;
use hevc_rules::coeffs::Carry;
use hevc_rules::levels::Going;
use hevc_stored::stored::Stored;

// What is carried on, what is told of the levels stored, and the state behind the sub-block.
#[derive(Clone, Copy)]
pub struct Carried {
    pub carry: Carry,
    pub stored: Stored,
    pub next: Interval,
}

fn align_if(due: bool, list: bool, bytes: &[u8], x: Interval) -> Step
    requires { Readable list bytes.now x }
    ensures { result ≡ aligned_if due list bytes.now x }
{
    if due {
        return align_bypass(list, bytes, x);
    }
    Ok(Taken { value: 0, next: x })
}

// A sub-block's levels, behind its places. What is lent is apart, since each function over a struct that held it would be walked by hand; then what the block has settled (p, t, h),
// the sub-block's place, its context set and significant places, what is carried on, what is told of the levels stored.
pub fn coeffs(
    list: bool,
    table: &[u32; 512],
    contexts: &mut [u8; CONTEXTS],
    bytes: &[u8],
    order: &[[u8; 2]; 16],
    block: &mut [i32],
    stats: &mut [u8; 4],
    p: Params,
    t: u32,
    h: Head,
    xs: u32,
    ys: u32,
    ctxset: u32,
    s: Places,
    c: Carry,
    k: Stored,
    x: Interval,
) -> Result<Carried, Refusal>
    requires { Reads list bytes.now x contexts.old × (table.now ≡ decisions) × (order.now ≡ pairs_of (inner_of p)) × Site p xs ys × (length block.old ≡ area p) × (t ≡ log2_transform_range p) × Statistics stats.old × (ctxset ≤ 3) × Packs s × (0 < s.count) × Carries c × Keeps p k block.old }
    ensures { (length block.new ≡ area p) × Statistics stats.new × SaysCoeffs p h (spot xs ys) list bytes.now ctxset s c x contexts.old block.old stats.old result contexts.new block.new stats.new × KeepsOn p result block.new }
{
    let base = greater1_base(p.luma, ctxset);
    let m = greater1(list, table, contexts, base, eight(s.count), bytes, x)?;
    let mask = m.mask;
    let number = greater2_number(p.luma, ctxset);
    let two = flag_if(mask != 0, list, table, contexts, number, bytes, m.next)?;
    let greater2 = two.value == 1;
    let due = aligns(p, s.count, mask, greater2);
    let aligned = align_if(due, list, bytes, two.next)?;
    let coded = s.count - hidden(p, h, s);
    let signs = decode_bypass_bits(list, bytes, aligned.next, coded)?;
    let sb = sb_type(p, h.skip);
    let stat = stats[sb];
    let start = Going {
        places: s.packed,
        count: s.count,
        mask,
        bins: eight(s.count),
        seen: false,
        signs: coded,
        rice: rice_start(p, stat),
        had: false,
        sum: 0,
        column: c.column,
        stat,
    };
    let e = read_levels(
        list,
        bytes,
        order,
        block,
        p,
        t,
        xs,
        ys,
        greater2,
        signs.value,
        start,
        k,
        signs.next,
    )?;
    let going = e.going;
    stats[sb] = going.stat;
    Ok(Carried {
        carry: Carry {
            carry: m.carry,
            first: false,
            column: going.column,
        },
        stored: e.stored,
        next: e.next,
    })
}
