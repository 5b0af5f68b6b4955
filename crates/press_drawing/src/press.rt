// The entry point: a drawing as a frame of the book.
ghost use Rattle.std.specs.Prelude.{◌≡◌, ◌≤◌, length};
ghost use Rattle.press_frame.specs.Pressed.{framed, packed_for, pressed};
ghost use Rattle.press_frame.specs.Said.{pressed_says, Leaves};

use bins::tags::CONTEXTS;
use cabac_checks::checks::passed;
use cabac_init::contexts::init_contexts;
use frame::fields::params;
use hevc_block_packer::entries::pack_bins;
use hevc_residual::params::Rdpcm;
use hevc_writer::entries::write_bins;
use press_frame::press::{Pressed, handed_refusal, line_number, put_frame};

// The list as a payload, and the frame with it.
fn pack_drawing(head: &[u8], values: &[u8], list: &[u8], room: &mut [u8]) -> Pressed
    requires { (length head.now ≡ 6) × (length values.now ≡ 130) × (4234 ≤ length room.old) }
    ensures { (pressed_says result room.new ≡ framed head.now values.now (packed_for head.now values.now list.now).answer (packed_for head.now values.now list.now).room) × Leaves result room.old room.new }
{
    let mut contexts = [0u8; CONTEXTS];
    let mut stats = [0u8; 4];
    init_contexts(&mut contexts, &mut stats, values, head[4]);
    let mut payload = [0u8; 4096];
    let n = pack_bins(&contexts, &stats, params(head), list, &mut payload).map_err(line_number)?;
    Ok(put_frame(head, values, &payload[..n], room))
}

// A drawing: the six bytes of a frame's header, 130 initial values, and n·n levels. The frame stands at the front of the room.
pub fn press(head: &[u8], values: &[u8], levels: &[i32], room: &mut [u8]) -> Pressed
    ensures { (pressed_says result room.new ≡ pressed (length room.old) head.now values.now levels.now) × Leaves result room.old room.new }
{
    passed(handed_refusal(room.len(), head, values))?;
    let mut stats = [0u8; 4];
    let mut list = [0u8; 71088];
    let written = write_bins(
        params(head),
        &mut stats,
        levels,
        false,
        Rdpcm::None,
        &mut list,
    );
    // No `?`: must-fail/drawing_is_refused_by_12 turns the number here, and nothing else.
    let n = match written {
        Ok(n) => n,
        Err(m) => return Err(m),
    };
    pack_drawing(head, values, &list[..n], room)
}
