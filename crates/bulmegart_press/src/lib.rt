// The press as a function that C and Rust call: a drawing in, a frame of the book out. It takes anything that it can be handed;
// include/bulmegart.h says the same for C.
#![tactic(auto)]

ghost use Rattle.std.specs.Prelude.{◌≡◌};
ghost use Rattle.bulmegart_press.specs.Exported.{answer_of, Given};

use press_drawing::press::press;
use press_frame::press::Pressed;

// The frame's length in the room; 0 after a refusal.
#[repr(C)]
#[derive(Clone, Copy)]
pub struct PressAnswer {
    pub number: u32,
    pub length: usize,
}

impl From<Pressed> for PressAnswer {
    ghost from_gives = { λ p a. a ≡ answer_of p };

    fn from(p: Pressed) -> PressAnswer {
        match p {
            Ok(length) => PressAnswer { number: 0, length },
            Err(number) => PressAnswer { number, length: 0 },
        }
    }
}

// A drawing: the six bytes of a frame's header, 130 initial values, n·n levels.
#[unsafe(no_mangle)]
pub extern "C" fn bulmegart_press(
    head: &[u8],
    values: &[u8],
    levels: &[i32],
    room: &mut [u8],
) -> PressAnswer
    ensures { Given room.old head.now values.now levels.now result room.new }
{
    press(head, values, levels, room).into()
}
