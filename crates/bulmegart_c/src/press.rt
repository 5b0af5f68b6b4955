// The press: a drawing in, a frame of the book out.
ghost use Rattle.bulmegart_press.specs.Exported.{Given};

use bulmegart_press::PressAnswer;

// A drawing: the six bytes of a frame's header, 130 initial values, n·n levels.
#[unsafe(no_mangle)]
pub extern "C" fn bulmegart_press(
    head: &[u8],
    values: &[u8],
    levels: &[i32],
    room: &mut [u8],
) -> PressAnswer
    ensures { Given room.old head.now values.now levels.now result room.new }
{
    bulmegart_press::bulmegart_press(head, values, levels, room)
}
