// The entry point: a block as a list of bins in a lent room.
// It takes anything: what document 01 does not accept is answered by its number.
ghost use Rattle.std.specs.Prelude.{◌≡◌, length};
ghost use Rattle.hevc_residual.specs.Wanted.{area};
ghost use Rattle.hevc_residual.specs.Refusal.{write_refusal};
ghost use Rattle.hevc_residual.specs.Limits.{Accepted, Statistics};
ghost use Rattle.hevc_residual.specs.Entries.{write_bins};
ghost use Rattle.pen.specs.Sheet.{sheet};
ghost use Rattle.hevc_block_pen.specs.BlockPuts.{wanted_of, Spells};
ghost use Rattle.hevc_residual.specs.Answers.{bins_written};
ghost use Rattle.hevc_writer.specs.EntriesPuts.{Goes};
ghost use Rattle.hevc_writer.specs.Demand3.{Exactly};

use cabac_checks::checks::passed;
use hevc_block_pen::subs::put_sub_blocks;
use hevc_checks::checks::bins_checks;
use hevc_head_rules::head::Head;
use hevc_longest::longest_list;
use hevc_pen::head::put_head;
use hevc_residual::answers::Written;
use hevc_residual::params::{Params, Rdpcm};
use hevc_scans::orders::{inner_order, outer_order};
use hevc_sizes::sizes::{area_of, grid};
use hevc_wanted::last::last_wanted;
use hevc_write_refusal::refusal::write_refusal;
use pen::room::Pen;

// The whole block, of which nothing is refused.
pub fn put_block(
    room: &mut [u8],
    pen: Pen,
    block: &[i32],
    stats: &mut [u8; 4],
    p: Params,
    skip: bool,
    rdpcm: Rdpcm,
) -> Pen
    requires { Accepted p × (length block.now ≡ area p) × Statistics stats.old × (write_refusal p (wanted_of skip rdpcm block.now) ≡ 0) }
    ensures { Spells p (wanted_of skip rdpcm block.now) stats.old stats.new (sheet room.old pen) (sheet room.new result) }
{
    let order = inner_order(p.scan);
    let outer = outer_order(p.log2, p.scan);
    let last = last_wanted(block, &order, &outer, p);
    let h = Head {
        skip,
        rdpcm,
        x: last.x,
        y: last.y,
    };
    let y = put_head(room, pen, p, h);
    let mut coded = [false; 64];
    let n = grid(p.log2);
    put_sub_blocks(room, y, block, &order, &outer, &mut coded[..n], stats, p, h)
}

// Whether the block's list goes into the room, of which nothing is changed. A room for the longest list of its size needs no count.
fn has_room(
    room: &mut [u8],
    block: &[i32],
    stats: &[u8; 4],
    p: Params,
    skip: bool,
    rdpcm: Rdpcm,
) -> bool
    requires { Accepted p × (length block.now ≡ area p) × Statistics stats.now × (write_refusal p (wanted_of skip rdpcm block.now) ≡ 0) }
    ensures { (room.new ≡ room.old) × Goes p stats.now (wanted_of skip rdpcm block.now) room.old result }
{
    if longest_list(p.log2) <= room.len() {
        return true;
    }
    let count = Pen {
        at: 0,
        over: false,
        writing: false,
    };
    let mut st = *stats;
    let counted = put_block(room, count, block, &mut st, p, skip, rdpcm);
    !counted.over
}

// One block of at least n·n levels. That the room is enough is known before anything is written.
pub fn write_bins(
    p: Params,
    stats: &mut [u8; 4],
    block: &[i32],
    skip: bool,
    rdpcm: Rdpcm,
    room: &mut [u8],
) -> Written
    ensures { (bins_written result stats.new room.new ≡ write_bins p stats.old block.now skip rdpcm room.old) × Exactly p stats.old block.now skip rdpcm room.old result room.new }
{
    passed(bins_checks(stats, p, block))?;
    let levels = &block[..area_of(p.log2)];
    passed(write_refusal(p, levels, skip, rdpcm))?;
    if !has_room(room, levels, stats, p, skip, rdpcm) {
        return Err(12);
    }
    let write = Pen {
        at: 0,
        over: false,
        writing: true,
    };
    let written = put_block(room, write, levels, stats, p, skip, rdpcm);
    Ok(written.at)
}
