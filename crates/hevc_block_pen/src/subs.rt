// Sub-blocks from the last one down.
ghost use Rattle.std.specs.Prelude.{◌≡◌, Bool, true, cond, ℕ, ◌+◌, ◌-◌, ◌*◌, ◌^◌, ◌≤◌, ◌<◌, length, get_or};
ghost use Rattle.bins.specs.Syn.{done};
ghost use Rattle.bins.specs.Tags.{context_count};
ghost use Rattle.hevc_residual.specs.Wanted.{Wanted, area, width, outer_of, inner_of};
ghost use Rattle.hevc_residual.specs.Scan.{spot};
ghost use Rattle.hevc_residual.specs.Limits.{Statistics};
ghost use Rattle.hevc_scans.specs.Pairs.{pairs_of, Orders};
ghost use Rattle.hevc_rules.specs.LevelsAgree.{Site};
ghost use Rattle.hevc_rules.specs.CoeffsAgree.{Carries};
ghost use Rattle.hevc_rules.specs.SubsAgree.{flag_or, Last};
ghost use Rattle.pen.specs.Sheet.{sheet, Wrote};
ghost use Rattle.hevc_levels_pen.specs.LevelsPuts.{AllInRange};
ghost use Rattle.hevc_block_pen.specs.SubsPuts.{GoesSub, GoesSubs};

use crate::places::put_places;
use hevc_coeffs_pen::coeffs::put_coeffs;
use hevc_head_rules::head::Head;
use hevc_places::places::sig_numbers;
use hevc_residual::params::Params;
use hevc_rules::coeffs::Carry;
use hevc_rules::subs::{
    ctxset_of, flag_number, is_middle, is_single, met, neighbours_of, places_below,
};
use hevc_scans::numbers::number_in;
use hevc_sizes::sizes::width_of;
use hevc_wanted::sub::{is_bare, levels_of};
use pen::room::{Pen, put_bin};

// coded_sub_block_flag, coded strictly between first and last.
fn put_coded_flag(room: &mut [u8], pen: Pen, middle: bool, number: usize, flag: bool) -> Pen
    requires { number < context_count }
    ensures { (want : Wanted → Bool) (w : Wanted) → (middle ≡ true → want w ≡ flag) → Wrote (flag_or middle number want) (done (cond middle flag true)) w (sheet room.old pen) (sheet room.new result) }
{
    if middle {
        return put_bin(room, pen, number, flag);
    }
    pen
}

// Elsewhere it is 1.
fn coded_now(middle: bool, flag: bool) -> bool
    ensures { result ≡ cond middle flag true }
{
    if middle { flag } else { true }
}

// What goes on behind a sub-block, and the pen.
#[derive(Clone, Copy)]
pub struct PutSub {
    pub carry: Carry,
    pub pen: Pen,
}

// What holds of all of a block's sub-blocks: its parameters and head, how many stand in a row, and that place lastin of number last is the last significant one.
#[derive(Clone, Copy)]
pub struct Settled {
    pub p: Params,
    pub h: Head,
    pub w: u32,
    pub last: u32,
    pub lastin: u32,
}

// A sub-block by its number in the scan, and where it stands.
#[derive(Clone, Copy)]
pub struct Sub {
    pub i: u32,
    pub xs: u32,
    pub ys: u32,
}

// Sub-block s of those up to the last. order is the scan of its places, coded which sub-blocks were coded by now, c what the one before it left.
pub fn put_sub_block(
    room: &mut [u8],
    pen: Pen,
    block: &[i32],
    order: &[[u8; 2]; 16],
    coded: &mut [bool],
    stats: &mut [u8; 4],
    t: Settled,
    s: Sub,
    c: Carry,
) -> PutSub
    requires { (order.now ≡ pairs_of (inner_of t.p)) × (t.w ≡ width t.p) × Site t.p s.xs s.ys × (length coded.old ≡ width t.p * width t.p) × (length block.now ≡ area t.p) × AllInRange t.p block.now × Statistics stats.old × Carries c × (get_or (outer_of t.p) s.i (spot 0 0) ≡ spot s.xs s.ys) × (t.lastin ≤ 15) × (s.i ≤ t.last) × (t.p.log2 ≡ 2 → s.i ≡ t.last) }
    ensures { (length coded.new ≡ width t.p * width t.p) × Statistics stats.new × Carries result.carry × GoesSub t.p t.h t.last t.lastin s.i block.now coded.old c stats.old coded.new result.carry stats.new (sheet room.old pen) (sheet room.new result.pen) }
{
    let p = t.p;
    let neighbours = neighbours_of(coded, t.w, s.xs, s.ys);
    let middle = is_middle(s.i, t.last);
    let flag = !is_bare(block, p, s.xs, s.ys);
    let number = flag_number(p.luma, neighbours);
    let y = put_coded_flag(room, pen, middle, number, flag);
    if !coded_now(middle, flag) {
        return PutSub { carry: c, pen: y };
    }
    coded[(s.ys * t.w + s.xs) as usize] = true;
    let levels = levels_of(block, order, p, s.xs, s.ys);
    let r = put_places(
        room,
        y,
        &levels,
        sig_numbers(p, is_single(p, t.h.skip), neighbours, s.xs, s.ys),
        middle,
        places_below(s.i, t.last, t.lastin),
        met(s.i, t.last, t.lastin),
    );
    let places = r.places;
    let z = r.pen;
    if places.count == 0 {
        return PutSub { carry: c, pen: z };
    }
    let q = put_coeffs(
        room,
        z,
        &levels,
        stats,
        p,
        t.h,
        ctxset_of(p, s.i, c),
        places,
    );
    let pen = q.pen;
    PutSub {
        carry: Carry {
            carry: q.carry,
            first: false,
            column: 0,
        },
        pen,
    }
}

// All of them, from the one of the last significant position down.
pub fn put_sub_blocks(
    room: &mut [u8],
    pen: Pen,
    block: &[i32],
    order: &[[u8; 2]; 16],
    outer: &[[u8; 2]; 64],
    coded: &mut [bool],
    stats: &mut [u8; 4],
    p: Params,
    h: Head,
) -> Pen
    requires { (order.now ≡ pairs_of (inner_of p)) × Orders (4 ^ (p.log2 - 2)) (outer_of p) outer.now × Last p h × (length coded.old ≡ width p * width p) × (length block.now ≡ area p) × AllInRange p block.now × Statistics stats.old }
    ensures { Statistics stats.new × GoesSubs p h block.now coded.old stats.old stats.new (sheet room.old pen) (sheet room.new result) }
{
    let w = width_of(p.log2);
    let last = number_in(p.log2 - 2, p.scan, h.x / 4, h.y / 4);
    let lastin = number_in(2, p.scan, h.x % 4, h.y % 4);
    let t = Settled {
        p,
        h,
        w,
        last,
        lastin,
    };
    let mut c = Carry {
        carry: 1,
        first: true,
        column: 0,
    };
    let mut y = pen;
    for i in (0..last + 1).rev() {
        let xs = outer[i as usize][0] as u32;
        let ys = outer[i as usize][1] as u32;
        let s = Sub { i, xs, ys };
        let r = put_sub_block(room, y, block, order, coded, stats, t, s, c);
        c = r.carry;
        y = r.pen;
    }
    y
}
