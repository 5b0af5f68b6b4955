// The entry point: a block's bin list as a payload in a lent room.
// It takes anything: what is not accepted is answered by its number. Contexts and statistics are read only.
ghost use Rattle.std.specs.Prelude.{◌≡◌};
ghost use Rattle.packer.specs.IntoCode.{packing_says};
ghost use Rattle.hevc_packer.specs.Entries.{pack_bins};
ghost use Rattle.hevc_packer.specs.Promise.{ReadsBack};

use bins::tags::CONTEXTS;
use cabac_checks::checks::passed;
use hevc_packer::entries::pack_checks;
use hevc_reader::entries::read_bins;
use hevc_residual::params::Params;
use packer::list::{Packing, pack_from};

// One block's list. The bin reader takes it or not; then it is packed by its own entries.
pub fn pack_bins(
    contexts: &[u8; CONTEXTS],
    stats: &[u8; 4],
    p: Params,
    list: &[u8],
    room: &mut [u8],
) -> Packing
    ensures { (packing_says result room.new ≡ pack_bins contexts.now stats.now p list.now room.old) × ReadsBack contexts.now stats.now p list.now room.old result room.new }
{
    let mut block = [0i32; 1024];
    passed(pack_checks(contexts, stats, p, &block))?;
    let mut st = *stats;
    let r = read_bins(list, &mut st, p, &mut block);
    let Ok(_) = r else {
        return Err(13);
    };
    pack_from(contexts, list, room)
}
