// The parts of a frame that a drawing becomes.
ghost use Rattle.std.specs.Prelude.{◌≡◌, ◌≤◌, cond, eqb, length, take};
ghost use Rattle.press_frame.specs.Pressed.{frame_of, handed_refusal};

use bins::tags::CONTEXTS;
use frame::fields::flags_refusal;
use text_room::put;

// The frame's length in the room, or the number of the refusal.
pub type Pressed = Result<usize, u32>;

// 4
pub fn handed_refusal(room: usize, head: &[u8], values: &[u8]) -> u32
    ensures { result ≡ handed_refusal room head.now values.now }
{
    if room < 4234 {
        return 4;
    }
    if head.len() != 6 {
        return 4;
    }
    if values.len() != CONTEXTS {
        return 4;
    }
    flags_refusal(head)
}

// A payload that is too long makes a line that is too long.
pub fn line_number(n: u32) -> u32
    ensures { result ≡ cond (eqb n 12) 22 n }
{
    if n == 12 {
        return 22;
    }
    n
}

// The frame's parts, one behind the other.
pub fn put_frame(head: &[u8], values: &[u8], payload: &[u8], room: &mut [u8]) -> usize
    requires { (length head.now ≡ 6) × (length values.now ≡ 130) × (length payload.now ≤ 4096) × (4234 ≤ length room.old) }
    ensures { take result room.new ≡ frame_of head.now values.now payload.now }
{
    let n = payload.len();
    let long = [(n / 256) as u8, (n % 256) as u8];
    let a = put(head, room, 0);
    let b = put(&long, room, a);
    let c = put(values, room, b);
    put(payload, room, c)
}
