// A scale's bin list as a payload in a lent room, and the numbers of what is handed in with a block's.
// An entry point takes anything: what is not accepted is answered by its number. Contexts are read only.
ghost use Rattle.std.specs.Prelude.{◌≡◌};
ghost use Rattle.packer.specs.IntoCode.{packing_says};
ghost use Rattle.hevc_packer.specs.Entries.{places, pack_checks, pack_scale};
ghost use Rattle.hevc_packer.specs.Promise.{ScaleBack};

use bins::tags::CONTEXTS;
use cabac_checks::checks::passed;
use hevc_checks::checks::{above_refusal, parameter_refusal};
use hevc_residual::params::Params;
use hevc_scale::entries::{component_refusal, read_scale_bins};
use packer::list::{Packing, pack_from};

// 4, 3. The number is its public contract: two tests through a Result and back would be no plainer.
pub fn pack_checks(contexts: &[u8], stats: &[u8], p: Params, block: &[i32]) -> u32
    requires { block.now ≡ places }
    ensures { result ≡ pack_checks contexts.now stats.now p }
{
    let a = parameter_refusal(p, block);
    if a != 0 {
        return a;
    }
    let b = above_refusal(contexts, 127);
    if b != 0 {
        return b;
    }
    above_refusal(stats, 84)
}

// One scale's list.
pub fn pack_scale(
    contexts: &[u8; CONTEXTS],
    component: u32,
    list: &[u8],
    room: &mut [u8],
) -> Packing
    ensures { (packing_says result room.new ≡ pack_scale contexts.now component list.now room.old) × ScaleBack contexts.now component list.now room.old result room.new }
{
    passed(component_refusal(component))?;
    passed(above_refusal(contexts, 127))?;
    let r = read_scale_bins(list, component);
    let Ok(_) = r else {
        return Err(13);
    };
    pack_from(contexts, list, room)
}
