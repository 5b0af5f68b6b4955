// The plain entry points: each refuses by 24 what is not plain, behind 4 and before 3, and else answers as the full one does.
ghost use Rattle.std.specs.Prelude.{◌≡◌};
ghost use Rattle.hevc_residual.specs.Answers.{payload_read, bins_read};
ghost use Rattle.hevc_plain.specs.Plain.{read_plain, read_plain_bins};

use bins::state::Engine;
use bins::tags::CONTEXTS;
use cabac_checks::checks::{passed, payload_refusal};
use hevc_plain_checks::checks::plain_checks;
use hevc_reader::entries::{read_bins, residual_coding};
use hevc_residual::answers::{Read, ReadList};
use hevc_residual::params::Params;

// One plain block from a payload.
pub fn residual_coding_plain(
    bytes: &[u8],
    e: Engine,
    contexts: &mut [u8; CONTEXTS],
    stats: &mut [u8; 4],
    p: Params,
    block: &mut [i32],
) -> Read
    ensures { payload_read result contexts.new stats.new block.new ≡ read_plain bytes.now e contexts.old stats.old p block.old }
{
    passed(payload_refusal(bytes))?;
    passed(plain_checks(stats, p, block))?;
    residual_coding(bytes, e, contexts, stats, p, block)
}

// One plain block from a bin list, which it must end.
pub fn read_bins_plain(bytes: &[u8], stats: &mut [u8; 4], p: Params, block: &mut [i32]) -> ReadList
    ensures { bins_read result stats.new block.new ≡ read_plain_bins bytes.now stats.old p block.old }
{
    passed(plain_checks(stats, p, block))?;
    read_bins(bytes, stats, p, block)
}
