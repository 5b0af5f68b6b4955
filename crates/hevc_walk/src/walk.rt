// The sub-blocks of a block, from the last one down.
ghost use Rattle.std.specs.Prelude.{◌≡◌, ◌+◌, ◌-◌, ◌*◌, ◌<◌, length, replicate, pos};
ghost use Rattle.tables.specs.Decisions.{decisions};
ghost use Rattle.hevc_residual.specs.Wanted.{area, width};
ghost use Rattle.hevc_elements.specs.Agree.{Reads};
ghost use Rattle.hevc_residual.specs.Limits.{Statistics};
ghost use Rattle.hevc_stored.specs.StoredAgree.{Keeps};
ghost use Rattle.hevc_subblock.specs.CarriedKeeps.{KeepsOn};
ghost use Rattle.hevc_rules.specs.SubsAgree.{Last};
ghost use Rattle.hevc_sub_blocks.specs.SubsAgree.{SaysSubs};

use bins::state::{Interval, Refusal};
use bins::tags::CONTEXTS;
use hevc_head_rules::head::Head;
use hevc_magnitudes::magnitudes::range_bits;
use hevc_residual::params::Params;
use hevc_rules::coeffs::Carry;
use hevc_scans::numbers::number_in;
use hevc_scans::orders::{inner_order, outer_order};
use hevc_sizes::sizes::width_of;
use hevc_stored::stored::Stored;
use hevc_sub_blocks::subs::sub_block;
use hevc_subblock::coeffs::Carried;

// All of them, into a block that is all zero.
pub fn sub_blocks(
    list: bool,
    table: &[u32; 512],
    contexts: &mut [u8; CONTEXTS],
    bytes: &[u8],
    coded: &mut [bool],
    block: &mut [i32],
    stats: &mut [u8; 4],
    p: Params,
    h: Head,
    x: Interval,
) -> Result<Carried, Refusal>
    requires { Reads list bytes.now x contexts.old × (table.now ≡ decisions) × Last p h × (length coded.old ≡ width p * width p) × (block.old ≡ replicate (area p) (pos 0)) × Statistics stats.old }
    ensures { (length block.new ≡ area p) × Statistics stats.new × SaysSubs p h list bytes.now x contexts.old coded.old block.old stats.old result contexts.new coded.new block.new stats.new × KeepsOn p result block.new }
{
    let order = inner_order(p.scan);
    let outer = outer_order(p.log2, p.scan);
    let t = range_bits(p);
    let w = width_of(p.log2);
    let last = number_in(p.log2 - 2, p.scan, h.x / 4, h.y / 4);
    let lastin = number_in(2, p.scan, h.x % 4, h.y % 4);
    let mut so_far = Carried {
        carry: Carry {
            carry: 1,
            first: true,
            column: 0,
        },
        stored: Stored {
            greatest: 0,
            far: 0,
            clean: true,
        },
        next: x,
    };
    for i in (0..last + 1).rev() {
        let xs = outer[i as usize][0] as u32;
        let ys = outer[i as usize][1] as u32;
        so_far = sub_block(
            list,
            table,
            contexts,
            bytes,
            &order,
            coded,
            block,
            stats,
            p,
            t,
            h,
            last,
            lastin,
            i,
            w,
            xs,
            ys,
            so_far.carry,
            so_far.stored,
            so_far.next,
        )?;
    }
    Ok(so_far)
}
