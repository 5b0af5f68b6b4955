// A drawing that is whole, as a line of the book, or in words.
use bins::tags::CONTEXTS;
use frame::fields::params;
use hevc_residual::params::Params;
use press_advice::advice::{Place, change_of, place_of};
use press_drawing::press::press;
use press_text::words;
use std::io;
use text::lines::part;
use text::write;

fn level_at(levels: &[i32; 1024], i: usize) -> i32 {
    if i < 1024 { levels[i] } else { 0 }
}

// The change that press_advice has shown the writer to take.
fn suggested(to: &impl Print, n: usize, p: Params, levels: &[i32; 1024]) -> io::Result<()> {
    match change_of(p, levels) {
        Some(c) => words::instead(to, n, c.place, level_at(levels, c.place), c.level),
        None => words::nothing_does(to),
    }
}

fn advised(to: &impl Print, n: usize, p: Params, levels: &[i32; 1024]) -> io::Result<()> {
    match place_of(p, levels) {
        Place::Nowhere(_) => Ok(()),
        Place::Far(i) => {
            words::far(to, n, i, level_at(levels, i))?;
            suggested(to, n, p, levels)
        }
        Place::Off(x, y) => {
            words::off(to, x, y)?;
            suggested(to, n, p, levels)
        }
    }
}

// n by n levels; `line` is where the drawing began. The book's line goes to `out`, words to `to`.
pub fn made(
    out: &impl Print,
    to: &impl Print,
    line: u64,
    n: usize,
    head: &[u8; 6],
    initial: &[u8; CONTEXTS],
    levels: &[i32; 1024],
) -> io::Result<()> {
    let mut room = [0u8; 4234];
    match press(head, initial, levels, &mut room) {
        Ok(long) => {
            write::hex_bytes(out, part(&room, 0, long))?;
            write::end_line(out)
        }
        Err(number) => {
            words::refused(to, line, number)?;
            advised(to, n, params(head), levels)?;
            words::end_line(to)
        }
    }
}
