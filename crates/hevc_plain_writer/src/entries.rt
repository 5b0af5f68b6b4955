// The plain entry point: it refuses by 24 what is not plain, behind 4, and else answers as the full one does.
ghost use Rattle.std.specs.Prelude.{◌≡◌};
ghost use Rattle.hevc_residual.specs.Answers.{bins_written};
ghost use Rattle.hevc_writer.specs.Demand3.{Exactly};
ghost use Rattle.hevc_plain.specs.Plain.{write_plain};
ghost use Rattle.hevc_plain_checks.specs.PlainCode.{plain_checks};

use cabac_checks::checks::passed;
use hevc_plain_checks::checks::plain_checks;
use hevc_residual::answers::Written;
use hevc_residual::params::{Params, Rdpcm};
use hevc_writer::entries::write_bins;

// A plain block as a bin list, with demand 3 of what passes 4 and 24.
pub fn write_bins_plain(
    p: Params,
    stats: &mut [u8; 4],
    block: &[i32],
    skip: bool,
    rdpcm: Rdpcm,
    room: &mut [u8],
) -> Written
    ensures { (bins_written result stats.new room.new ≡ write_plain p stats.old block.now skip rdpcm room.old) × (0 ≡ plain_checks stats.old p block.now → Exactly p stats.old block.now skip rdpcm room.old result room.new) }
{
    passed(plain_checks(stats, p, block))?;
    write_bins(p, stats, block, skip, rdpcm, room)
}
