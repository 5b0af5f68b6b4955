// A plain block from a bin list.
ghost use Rattle.std.specs.Prelude.{◌≡◌};
ghost use Rattle.bulmegart_blocks.specs.Blocks.{list_left};
ghost use Rattle.bulmegart_plain.specs.Plain.{read_plain_list};

use bulmegart::records::{BlockParams, params_flags};
use bulmegart_blocks::blocks::ListAnswer;
use hevc_plain_coding::entries::read_bins_plain;

// One plain block from a bin list, which it must end.
#[unsafe(no_mangle)]
pub extern "C" fn bulmegart_read_bins_plain(
    list: &[u8],
    statistics: &mut [u8; 4],
    params: BlockParams,
    levels: &mut [i32],
) -> ListAnswer
    ensures { list_left result statistics.new levels.new ≡ read_plain_list list.now statistics.old params levels.old }
{
    let n = params_flags(params);
    if n != 0 {
        return ListAnswer::from(Err(n));
    }
    let r = read_bins_plain(list, statistics, params.into(), levels);
    ListAnswer::from(r)
}
