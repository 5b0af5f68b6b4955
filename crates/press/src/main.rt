// Presses drawings into a book: standard input has drawings as a person types them (docs/PRESS.md), standard output the book's line of each.
// Of a drawing that no picture can hold, and of bad input, there is no line in the book: standard error has it in words, or standard output between
// the lines, where the first argument is `together`.
// The line is press_frame's and press_line's, the advice press_advice's: what they promise is what is written here.
#![tactic(auto)]

mod made; // made.rt: a drawing that is whole, as a line or in words
mod sheet; // sheet.rt: a drawing line by line

use crate::sheet::Sheet;
use bins::tags::CONTEXTS;
use check::same;
use std::env::Env;
use std::io;
use std::io::Read;
use text::lines;
use text::lines::{Line, Window, part};

// The longest line, with its line feed.
const LINE: usize = 4096;

// What goes on from line to line. Behind the front of a line that is too long its tail is left out.
#[derive(Clone, Copy)]
struct Held {
    window: Window,
    sheet: Sheet,
    tail: bool,
}

// One line; none behind the end.
fn turn(
    input: &mut impl Read,
    out: &impl Print,
    to: &impl Print,
    buffer: &mut [u8; LINE],
    head: &mut [u8; 6],
    initial: &mut [u8; CONTEXTS],
    levels: &mut [i32; 1024],
    filled: &mut [usize; 32],
    h: Held,
) -> io::Result<Option<Held>> {
    let window = h.window;
    let before = h.sheet;
    match lines::next(input, buffer, window)? {
        Line::Is(from, end, left) => {
            let sheet = sheet::line(
                out,
                to,
                part(buffer, from, end),
                h.tail,
                head,
                initial,
                levels,
                filled,
                before,
            )?;
            Ok(Some(Held {
                window: left,
                sheet,
                tail: false,
            }))
        }
        Line::Ended => {
            sheet::end(out, to, head, initial, levels, filled, before)?;
            Ok(None)
        }
        Line::TooLong => {
            let sheet = sheet::long(to, h.tail, before)?;
            Ok(Some(Held {
                window: lines::nothing_read(),
                sheet,
                tail: true,
            }))
        }
    }
}

// Nothing says that the input ends: the loop counts to a number that no run uses up.
fn turns(
    input: &mut impl Read,
    out: &impl Print,
    to: &impl Print,
    buffer: &mut [u8; LINE],
    head: &mut [u8; 6],
    initial: &mut [u8; CONTEXTS],
    levels: &mut [i32; 1024],
    filled: &mut [usize; 32],
) -> io::Result<()> {
    let blank = sheet::blank();
    let mut h = Held {
        window: lines::nothing_read(),
        sheet: blank,
        tail: false,
    };
    sheet::clear(head, initial, levels, filled);
    for _ in 0..u64::MAX {
        let Some(next) = turn(input, out, to, buffer, head, initial, levels, filled, h)? else {
            return Ok(());
        };
        h = next;
    }
    Ok(())
}

// All drawings; words go to `to`.
fn drawings(input: &mut impl Read, out: &impl Print, to: &impl Print) -> io::Result<()> {
    let mut buffer = [0u8; LINE];
    let mut head = [0u8; 6];
    let mut initial = [0u8; CONTEXTS];
    let mut levels = [0i32; 1024];
    let mut filled = [0usize; 32];
    turns(
        input,
        out,
        to,
        &mut buffer,
        &mut head,
        &mut initial,
        &mut levels,
        &mut filled,
    )
}

// Whether words go to standard output too.
fn is_together(rt: &impl Env) -> bool {
    let mut name = [0u8; 4096];
    match rt.arg(1, &mut name) {
        Ok(n) => same(part(&name, 0, n), b"together"),
        Err(_) => false,
    }
}

fn main(rt: HostRuntime) -> io::Result<()> {
    let out = rt.stdout();
    if is_together(&rt) {
        return drawings(&mut rt.stdin(), &out, &out);
    }
    drawings(&mut rt.stdin(), &out, &rt.stderr())
}
