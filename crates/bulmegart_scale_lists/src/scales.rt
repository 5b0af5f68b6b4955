// The cross-component scale and bin lists. After a refusal an answer is 0.
ghost use Rattle.std.specs.Prelude.{◌≡◌};
ghost use Rattle.bulmegart_scales.specs.Scales.{read_scale_list, scale_written, write_scale};

use bulmegart_blocks::lists::WriteAnswer;
use bulmegart_scales::scales::ScaleListAnswer;
use hevc_scale::entries::read_scale_bins;
use hevc_scale_writer::entries::write_scale_bins;

// The same from a bin list, which it must end.
#[unsafe(no_mangle)]
pub extern "C" fn bulmegart_read_scale_bins(list: &[u8], component: u32) -> ScaleListAnswer
    ensures { result ≡ read_scale_list list.now component }
{
    read_scale_bins(list, component).into()
}

// One scale as a bin list in the room.
#[unsafe(no_mangle)]
pub extern "C" fn bulmegart_write_scale_bins(
    component: u32,
    scale: i32,
    room: &mut [u8],
) -> WriteAnswer
    ensures { scale_written result room.new ≡ write_scale component scale room.old }
{
    write_scale_bins(component, scale, room).into()
}
