// The lines of a reader, as standard input, through a buffer that the program lends.
// What reads promises that a line lies in the buffer, and not which it is: no contract can say what the operating system hands over.
// Where the reader fails the error is answered, and what stands in the buffer is no matter then.
ghost use Rattle.std.specs.Prelude.{◌≡◌, ◌≤◌, ◌-◌, min, length, IfOk};
ghost use Rattle.octet_scan.specs.Octets.{slice};
ghost use Rattle.text.specs.Lines.{Lies};

use octet_scan::find;
use std::io;
use std::io::Read;

// What was read into the buffer and is not handed out yet.
#[derive(Clone, Copy)]
pub struct Window {
    pub from: usize,
    pub to: usize,
}

pub fn nothing_read() -> Window
    ensures { (result.from ≡ 0) × (result.to ≡ 0) }
{
    Window { from: 0, to: 0 }
}

// A line's first place and the place behind its last, with what is left behind it. Three answers, so neither an Option nor a Result.
#[derive(Clone, Copy)]
pub enum Line {
    Is(usize, usize, Window),
    Ended,
    TooLong,
}

// Moves what stands from a place on to the front, and answers how much it is.
fn move_down(buf: &mut [u8], from: usize, to: usize) -> usize
    requires { (from ≤ to) × (to ≤ length buf.old) }
    ensures { result ≤ length buf.new }
{
    buf.copy_within(from..to, 0);
    to - from
}

// Reads until the buffer is full or the input ends; answers how much was read.
pub fn read_full(input: &mut impl Read, buf: &mut [u8]) -> io::Result<usize>
    ensures { IfOk result (λ n. n ≤ length buf.new) }
{
    let mut done: usize = 0;
    while done < buf.len() {
        let n = input.read(&mut buf[done..])?;
        if n == 0 {
            return Ok(done);
        }
        done += n;
    }
    Ok(done)
}

// Moves what is left to the front and fills the buffer behind it; answers where what was read ends.
fn refill(input: &mut impl Read, buf: &mut [u8], from: usize, to: usize) -> io::Result<usize>
    requires { (from ≤ to) × (to ≤ length buf.old) }
    ensures { IfOk result (λ n. n ≤ length buf.new) }
{
    let kept = move_down(buf, from, to);
    let got = read_full(input, &mut buf[kept..])?;
    Ok(kept + got)
}

// The next line, without its line feed. A line that the buffer cannot hold is too long.
pub fn next(input: &mut impl Read, buf: &mut [u8], w: Window) -> io::Result<Line>
    ensures { IfOk result (Lies (length buf.new)) }
{
    let to = w.to.min(buf.len());
    let from = w.from.min(to);
    let end = find(buf, from, to, b'\n');
    if end < to {
        return Ok(Line::Is(from, end, Window { from: end + 1, to }));
    }
    let filled = refill(input, buf, from, to)?;
    if filled == 0 {
        return Ok(Line::Ended);
    }
    let stop = find(buf, 0, filled, b'\n');
    if stop < filled {
        return Ok(Line::Is(
            0,
            stop,
            Window {
                from: stop + 1,
                to: filled,
            },
        ));
    }
    if filled < buf.len() {
        return Ok(Line::Is(
            0,
            filled,
            Window {
                from: filled,
                to: filled,
            },
        ));
    }
    Ok(Line::TooLong)
}

// What stands from one place up to another; less where the buffer ends before.
pub fn part(buf: &[u8], from: usize, to: usize) -> &[u8]
    ensures { result.now ≡ slice from to buf.now }
{
    let end = to.min(buf.len());
    let start = from.min(end);
    &buf[start..end]
}
