// The levels at the significant places of a sub-block: greater1, greater2, alignment, signs, remainders.
ghost use Rattle.std.specs.Prelude.{◌≤◌, ◌<◌};
ghost use Rattle.hevc_residual.specs.Limits.{Statistics};
ghost use Rattle.hevc_places.specs.Packing.{Packs};
ghost use Rattle.pen.specs.Sheet.{sheet};
ghost use Rattle.hevc_levels_pen.specs.LevelsPuts.{InRange};
ghost use Rattle.hevc_coeffs_pen.specs.CoeffsPuts.{Aligned, GoesCoeffs};

use hevc_coeff_rules::coeffs::{
    aligns, eight, greater1_base, greater2_number, hidden, rice_start, sb_type,
};
use hevc_head_rules::head::Head;
use hevc_levels_pen::greater::{is_greater2, put_greater1};
use hevc_levels_pen::levels::put_levels;
use hevc_levels_pen::signs::signs_of;
use hevc_pen::shapes::{put_bits, put_flag_if};
use hevc_places::places::Places;
use hevc_residual::params::Params;
use hevc_rules::levels::Going;
use pen::room::{Pen, put_align};

fn put_align_if(room: &mut [u8], pen: Pen, due: bool) -> Pen
    ensures { Aligned due (sheet room.old pen) (sheet room.new result) }
{
    if due {
        return put_align(room, pen);
    }
    pen
}

// greater1Ctx behind the sub-block, and the pen.
#[derive(Clone, Copy)]
pub struct PutCoeffs {
    pub carry: u32,
    pub pen: Pen,
}

pub fn put_coeffs(
    room: &mut [u8],
    pen: Pen,
    levels: &[i32; 16],
    stats: &mut [u8; 4],
    p: Params,
    h: Head,
    ctxset: u32,
    s: Places,
) -> PutCoeffs
    requires { (p.depth ≤ 16) × InRange p levels.now × Statistics stats.old × (ctxset ≤ 3) × Packs s × (0 < s.count) }
    ensures { (result.carry ≤ 3) × Statistics stats.new × GoesCoeffs p h ctxset s levels.now stats.old result.carry stats.new (sheet room.old pen) (sheet room.new result.pen) }
{
    let n = eight(s.count);
    let g = put_greater1(room, pen, levels, s, greater1_base(p.luma, ctxset), n);
    let mask = g.mask;
    let two = is_greater2(levels, s, mask, n);
    let behind = g.pen;
    let a = put_flag_if(
        room,
        behind,
        mask != 0,
        greater2_number(p.luma, ctxset),
        two,
    );
    let b = put_align_if(room, a, aligns(p, s.count, mask, two));
    let coded = s.count - hidden(p, h, s);
    let c = put_bits(room, b, coded, signs_of(levels, s, coded));
    let sb = sb_type(p, h.skip);
    let stat = stats[sb];
    let start = Going {
        places: s.packed,
        count: s.count,
        mask,
        bins: n,
        seen: false,
        signs: coded,
        rice: rice_start(p, stat),
        had: false,
        sum: 0,
        column: 0,
        stat,
    };
    let l = put_levels(room, c, levels, p, two, start);
    let e = l.going;
    stats[sb] = e.stat;
    let pen = l.pen;
    PutCoeffs {
        carry: g.carry,
        pen,
    }
}
