// One entry into a lent room, or two more to the count of bytes.
ghost use Rattle.std.specs.Prelude.{◌≡◌, ◌≤◌, ◌<◌};
ghost use Rattle.bins.specs.Tags.{tag, bypass_no, align_tag};
ghost use Rattle.pen.specs.Sheet.{sheet, moved, inked, entered};

use bins::tags::{ALIGNMENT, BYPASS};

// Where the next byte goes. A pen that only counts leaves the room as it is; one that found no place for a byte is over.
#[derive(Clone, Copy)]
pub struct Pen {
    pub at: usize,
    pub over: bool,
    pub writing: bool,
}

fn on(pen: Pen) -> Pen
    requires { pen.at < 18446744073709551615 }
    ensures { result ≡ moved pen }
{
    Pen {
        at: pen.at + 1,
        ..pen
    }
}

fn put(room: &mut [u8], pen: Pen, x: u8) -> Pen
    ensures { sheet room.new result ≡ inked x (sheet room.old pen) }
{
    let at = pen.at;
    if room.len() <= at {
        return Pen { over: true, ..pen };
    }
    if pen.writing {
        room[at] = x;
        return on(pen);
    }
    on(pen)
}

// An entry: its low byte, then its high one.
fn put_entry(room: &mut [u8], pen: Pen, t: u32) -> Pen
    requires { t < 65536 }
    ensures { sheet room.new result ≡ entered t (sheet room.old pen) }
{
    let half = put(room, pen, (t % 256) as u8);
    put(room, half, (t / 256) as u8)
}

// A bin with the context of a number. Its tag is a sum and no branch: a processor guesses bins badly.
pub fn put_bin(room: &mut [u8], pen: Pen, number: usize, bin: bool) -> Pen
    requires { number < 32768 }
    ensures { sheet room.new result ≡ entered (tag number bin) (sheet room.old pen) }
{
    let tag = 2 * number as u32 + u32::from(bin);
    put_entry(room, pen, tag)
}

pub fn put_bypass(room: &mut [u8], pen: Pen, bin: bool) -> Pen
    ensures { sheet room.new result ≡ entered (tag bypass_no bin) (sheet room.old pen) }
{
    put_bin(room, pen, BYPASS as usize, bin)
}

pub fn put_align(room: &mut [u8], pen: Pen) -> Pen
    ensures { sheet room.new result ≡ entered align_tag (sheet room.old pen) }
{
    put_entry(room, pen, ALIGNMENT)
}
