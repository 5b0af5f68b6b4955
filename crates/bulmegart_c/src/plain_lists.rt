// A plain block from a bin list.
ghost use Rattle.std.specs.Prelude.{◌≡◌};
ghost use Rattle.bulmegart_blocks.specs.Blocks.{list_left};
ghost use Rattle.bulmegart_plain.specs.Plain.{read_plain_list};

use bulmegart::records::BlockParams;
use bulmegart_blocks::blocks::ListAnswer;

// One plain block from a bin list, which it must end.
#[unsafe(no_mangle)]
pub extern "C" fn bulmegart_read_bins_plain(
    list: &[u8],
    statistics: &mut [u8; 4],
    params: BlockParams,
    levels: &mut [i32],
) -> ListAnswer
    ensures { list_left result statistics.new levels.new ≡ read_plain_list list.now statistics.old params levels.old }
{
    bulmegart_plain_lists::plain::bulmegart_read_bins_plain(list, statistics, params, levels)
}
