// Bytes that go out: a carry into those that stand, one more, and the last ones.
ghost use Rattle.std.specs.Prelude.{◌≡◌, ◌+◌, ◌≤◌, ◌<◌, length};
ghost use Rattle.packer_steps.specs.Register.{carried, inked, Steady, Grown, PutOut, last_of};

use packer_steps::coder::Coder;

// One more in the number that the first n bytes make.
pub fn carry(room: &mut [u8], n: usize)
    requires { n ≤ length room.old }
    ensures { room.new ≡ carried n room.old }
{
    for k in (0..n).rev() {
        let byte = room[k];
        if byte < 255 {
            room[k] = byte + 1;
            return;
        }
        room[k] = 0;
    }
}

// Nine bits, of which the first is a carry, at a place of the room. A pen that only counts leaves the room as it is.
fn put_byte(room: &mut [u8], at: usize, nine: u32, writing: bool)
    requires { nine < 512 }
    ensures { room.new ≡ inked writing nine at room.old }
{
    if writing {
        if at < room.len() {
            room[at] = (nine % 256) as u8;
            if 256 <= nine {
                carry(room, at);
            }
        }
    }
}

// A byte of the register goes to the room where it has one to spare.
pub fn put_out(room: &mut [u8], c: Coder, writing: bool) -> Coder
    requires { Grown c }
    ensures { PutOut writing room.old c room.new result }
{
    if c.bits < 17 {
        return c;
    }
    let rest = c.bits - 8;
    let nine = c.low >> rest;
    put_byte(room, c.at, nine, writing);
    Coder {
        low: c.low - (nine << rest),
        bits: rest,
        at: c.at + 1,
        ..c
    }
}

// EncodeTerminate with bin 1, and EncodeFlush: the greater odd number of the last two, and zero bits that fill the last byte. The answer is the payload's length.
pub fn flush(room: &mut [u8], c: Coder, writing: bool) -> usize
    requires { Steady c }
    ensures { (result ≡ c.at + 2) × (room.new ≡ last_of writing c room.old) }
{
    let v = c.low + (c.range - 2);
    let odd = v + (1 - v % 2);
    let last = odd << (16 - c.bits);
    put_byte(room, c.at, last / 256, writing);
    put_byte(room, c.at + 1, last % 256, writing);
    c.at + 2
}
