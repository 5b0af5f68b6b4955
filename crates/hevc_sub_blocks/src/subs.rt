// One sub-block: its flag, its significant places, its levels.
ghost use Rattle.std.specs.Prelude.{◌≡◌, Bool, ◌+◌, ◌-◌, ◌*◌, ◌≤◌, ◌<◌, length, get_or};
ghost use Rattle.tables.specs.Decisions.{decisions};
ghost use Rattle.bins.specs.Tags.{context_count};
ghost use Rattle.hevc_residual.specs.Wanted.{Wanted, area, width, outer_of, inner_of};
ghost use Rattle.hevc_residual.specs.Remainder.{log2_transform_range};
ghost use Rattle.hevc_residual.specs.Scan.{spot};
ghost use Rattle.hevc_scans.specs.Pairs.{pairs_of};
ghost use Rattle.hevc_elements.specs.Agree.{Reads, from, SaysFlag};
ghost use Rattle.hevc_rules.specs.LevelsAgree.{Site};
ghost use Rattle.hevc_residual.specs.Limits.{Statistics};
ghost use Rattle.hevc_rules.specs.CoeffsAgree.{Carries};
ghost use Rattle.hevc_stored.specs.StoredAgree.{Keeps};
ghost use Rattle.hevc_subblock.specs.CarriedKeeps.{KeepsOn};
ghost use Rattle.hevc_rules.specs.SubsAgree.{flag_or};
ghost use Rattle.hevc_sub_blocks.specs.SubsAgree.{SaysSub};

use bins::state::{Interval, Refusal, Step, Taken};
use bins::tags::CONTEXTS;
use hevc_elements::shapes::context_bin;
use hevc_head_rules::head::Head;
use hevc_places::places::sig_numbers;
use hevc_residual::params::Params;
use hevc_rules::coeffs::Carry;
use hevc_rules::subs::{
    ctxset_of, flag_number, is_middle, is_single, met, neighbours_of, places_below,
};
use hevc_stored::stored::Stored;
use hevc_subblock::coeffs::{Carried, coeffs};
use hevc_subblock::places::significance;

// coded_sub_block_flag, coded strictly between first and last; elsewhere 1.
fn coded_flag(
    middle: bool,
    list: bool,
    table: &[u32; 512],
    contexts: &mut [u8; CONTEXTS],
    number: usize,
    bytes: &[u8],
    x: Interval,
) -> Step
    requires { Reads list bytes.now x contexts.old × (number < context_count) × (table.now ≡ decisions) }
    ensures { (w : Wanted → Bool) → SaysFlag result contexts.new (from list bytes.now (flag_or middle number w) x contexts.old) }
{
    if middle {
        return context_bin(list, table, contexts, number, bytes, x);
    }
    Ok(Taken { value: 1, next: x })
}

// One sub-block. What is lent is apart, since each function over a struct that held it would be walked by hand: source and table, contexts, scan, flags, levels, statistics.
// Then what the block has settled (p, t, h), the last sub-block and the last place in it, this one's number and place among w, what is carried on, what is told of the levels stored.
pub fn sub_block(
    list: bool,
    table: &[u32; 512],
    contexts: &mut [u8; CONTEXTS],
    bytes: &[u8],
    order: &[[u8; 2]; 16],
    coded: &mut [bool],
    block: &mut [i32],
    stats: &mut [u8; 4],
    p: Params,
    t: u32,
    h: Head,
    last: u32,
    lastin: u32,
    i: u32,
    w: u32,
    xs: u32,
    ys: u32,
    c: Carry,
    k: Stored,
    x: Interval,
) -> Result<Carried, Refusal>
    requires { Reads list bytes.now x contexts.old × (table.now ≡ decisions) × (order.now ≡ pairs_of (inner_of p)) × (w ≡ width p) × Site p xs ys × (length coded.old ≡ width p * width p) × (length block.old ≡ area p) × (t ≡ log2_transform_range p) × Statistics stats.old × Carries c × (get_or (outer_of p) i (spot 0 0) ≡ spot xs ys) × (lastin ≤ 15) × (i ≤ last) × (p.log2 ≡ 2 → i ≡ last) × Keeps p k block.old }
    ensures { (length coded.new ≡ width p * width p) × (length block.new ≡ area p) × Statistics stats.new × SaysSub p h list bytes.now last lastin i c x contexts.old coded.old block.old stats.old result contexts.new coded.new block.new stats.new × KeepsOn p result block.new }
{
    let neighbours = neighbours_of(coded, w, xs, ys);
    let middle = is_middle(i, last);
    let number = flag_number(p.luma, neighbours);
    let flag = coded_flag(middle, list, table, contexts, number, bytes, x)?;
    if flag.value == 0 {
        return Ok(Carried {
            carry: c,
            stored: k,
            next: flag.next,
        });
    }
    coded[(ys * w + xs) as usize] = true;
    let placed = significance(
        list,
        table,
        contexts,
        bytes,
        sig_numbers(p, is_single(p, h.skip), neighbours, xs, ys),
        middle,
        places_below(i, last, lastin),
        met(i, last, lastin),
        flag.next,
    )?;
    let s = placed.places;
    if s.count == 0 {
        return Ok(Carried {
            carry: c,
            stored: k,
            next: placed.next,
        });
    }
    coeffs(
        list,
        table,
        contexts,
        bytes,
        order,
        block,
        stats,
        p,
        t,
        h,
        xs,
        ys,
        ctxset_of(p, i, c),
        s,
        c,
        k,
        placed.next,
    )
}
