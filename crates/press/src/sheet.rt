// A drawing line by line: words first, then the rows; an empty line, a dot or the end of the input ends it.
// The book's lines go to the printer `out`, what is told to `to`.
use crate::made;
use bins::tags::CONTEXTS;
use check::same;
use octet_scan::find;
use press_text::keys::Taken;
use press_text::words::{BadInput, Why};
use press_text::{keys, rows, values, words};
use press_tokens::tokens::{end_of, start_of};
use std::io;
use text::lines::part;

// What goes on from line to line.
#[derive(Clone, Copy)]
pub struct Sheet {
    pub line: u64, // how many lines were read
    pub first: Option<u64>, // the line at which the drawing began
    pub bad: bool, // the drawing has bad input: its other lines are left out
    pub shown: bool, // rows stand as `show` prints them
    pub begun: bool, // a row was given
    pub rows: usize, // how many
}

pub fn blank() -> Sheet {
    Sheet {
        line: 0,
        first: None,
        bad: false,
        shown: false,
        begun: false,
        rows: 0,
    }
}

// What holds unless a drawing says another thing: luma, diagonal scan, depth 8, QP 26, no hiding, the initial values of I slices.
pub fn clear(
    head: &mut [u8; 6],
    initial: &mut [u8; CONTEXTS],
    levels: &mut [i32; 1024],
    filled: &mut [usize; 32],
) {
    *head = [0, 1, 0, 8, 26, 0];
    *initial = values::of_i_slices();
    *levels = [0i32; 1024];
    *filled = [0usize; 32];
}

// No input has so many lines.
fn next_line(h: Sheet) -> Sheet {
    let line = if h.line < 1000000000000000 {
        h.line + 1
    } else {
        h.line
    };
    Sheet { line, ..h }
}

fn cleared(h: Sheet) -> Sheet {
    Sheet {
        line: h.line,
        ..blank()
    }
}

fn spoiled(to: &impl Print, h: Sheet, b: BadInput) -> io::Result<Sheet> {
    words::bad(to, h.line, b)?;
    Ok(Sheet { bad: true, ..h })
}

// A drawing that has all its rows is made; of another the row that is missing is told.
fn finished(
    out: &impl Print,
    to: &impl Print,
    head: &[u8; 6],
    initial: &[u8; CONTEXTS],
    levels: &[i32; 1024],
    filled: &[usize; 32],
    line: u64,
    first: u64,
) -> io::Result<()> {
    let n = rows::side(head[0]);
    if n == 0 {
        return words::bad(
            to,
            line,
            BadInput {
                at: 0,
                why: Why::NoSize,
            },
        );
    }
    let row = rows::missing(n, filled);
    if row < n {
        return words::missing(to, line, row, n);
    }
    made::made(out, to, first, n, head, initial, levels)
}

// What ends a drawing, if one has begun.
pub fn end(
    out: &impl Print,
    to: &impl Print,
    head: &mut [u8; 6],
    initial: &mut [u8; CONTEXTS],
    levels: &mut [i32; 1024],
    filled: &mut [usize; 32],
    h: Sheet,
) -> io::Result<Sheet> {
    let Some(first) = h.first else {
        return Ok(cleared(h));
    };
    if !h.bad {
        finished(out, to, head, initial, levels, filled, h.line, first)?;
    }
    clear(head, initial, levels, filled);
    Ok(cleared(h))
}

fn keyed(
    to: &impl Print,
    s: &[u8],
    head: &mut [u8; 6],
    initial: &mut [u8; CONTEXTS],
    h: Sheet,
) -> io::Result<Sheet> {
    if h.begun {
        return spoiled(
            to,
            h,
            BadInput {
                at: start_of(s, 0, false),
                why: Why::Late,
            },
        );
    }
    match keys::key(s, head, initial) {
        Ok(Taken::Word) => Ok(h),
        Ok(Taken::Shown) => Ok(Sheet { shown: true, ..h }),
        Err(b) => spoiled(to, h, b),
    }
}

// A row, in either form.
fn row_of(
    s: &[u8],
    log2: u8,
    levels: &mut [i32; 1024],
    filled: &mut [usize; 32],
    shown: bool,
    row: usize,
) -> Result<usize, BadInput> {
    if shown {
        return rows::shown(s, log2, levels, filled);
    }
    rows::plain(s, log2, row, levels, filled)
}

fn rowed(
    to: &impl Print,
    s: &[u8],
    log2: u8,
    levels: &mut [i32; 1024],
    filled: &mut [usize; 32],
    h: Sheet,
) -> io::Result<Sheet> {
    if log2 == 0 {
        return spoiled(
            to,
            h,
            BadInput {
                at: start_of(s, 0, false),
                why: Why::NoSize,
            },
        );
    }
    match row_of(s, log2, levels, filled, h.shown, h.rows) {
        Ok(_) => {
            let rows = if h.rows < 32 { h.rows + 1 } else { h.rows };
            Ok(Sheet {
                begun: true,
                rows,
                ..h
            })
        }
        Err(b) => spoiled(to, h, b),
    }
}

fn is_letter(b: u8) -> bool {
    match b {
        97..=122 | 65..=90 => true,
        _ => false,
    }
}

fn begins_with_letter(s: &[u8], at: usize) -> bool {
    if s.len() <= at {
        return false;
    }
    is_letter(s[at])
}

// A line of a drawing.
fn within(
    to: &impl Print,
    s: &[u8],
    head: &mut [u8; 6],
    initial: &mut [u8; CONTEXTS],
    levels: &mut [i32; 1024],
    filled: &mut [usize; 32],
    h: Sheet,
) -> io::Result<Sheet> {
    if h.bad {
        return Ok(h);
    }
    if h.shown {
        // what `show` writes beside its rows has no bar
        if s.len() <= find(s, 0, s.len(), b'|') {
            return Ok(h);
        }
        return rowed(to, s, head[0], levels, filled, h);
    }
    if begins_with_letter(s, start_of(s, 0, false)) {
        return keyed(to, s, head, initial, h);
    }
    rowed(to, s, head[0], levels, filled, h)
}

fn begun(h: Sheet) -> Sheet {
    Sheet {
        first: h.first.or(Some(h.line)),
        ..h
    }
}

// The next line, unless it is the tail of one that was too long.
pub fn line(
    out: &impl Print,
    to: &impl Print,
    s: &[u8],
    tail: bool,
    head: &mut [u8; 6],
    initial: &mut [u8; CONTEXTS],
    levels: &mut [i32; 1024],
    filled: &mut [usize; 32],
    before: Sheet,
) -> io::Result<Sheet> {
    if tail {
        return Ok(before);
    }
    let h = next_line(before);
    let a = start_of(s, 0, false);
    let word = part(s, a, end_of(s, a, false));
    if same(part(word, 0, 1), b"#") {
        return Ok(h);
    }
    if word.len() == 0 {
        return end(out, to, head, initial, levels, filled, h);
    }
    if same(part(s, a, s.len()), b".") {
        return end(out, to, head, initial, levels, filled, h);
    }
    within(to, s, head, initial, levels, filled, begun(h))
}

// The front of a line that is too long.
pub fn long(to: &impl Print, tail: bool, before: Sheet) -> io::Result<Sheet> {
    if tail {
        return Ok(before);
    }
    let h = begun(next_line(before));
    if h.bad {
        return Ok(h);
    }
    spoiled(
        to,
        h,
        BadInput {
            at: 4095,
            why: Why::Long,
        },
    )
}
