// What is told: bad input by line and column, and why no picture can hold a drawing.
use std::{fmt, io};
use text::write;

// Why a line is bad input.
#[derive(Clone, Copy)]
pub enum Why {
    Word,
    Size,
    Scan,
    Depth,
    Qp,
    Values,
    Behind,
    Level,
    Many,
    Few,
    Row,
    Rows,
    NoSize,
    Late,
    Long,
}

impl fmt::Display for Why {
    fn fmt<W: fmt::Write>(&self, f: &mut fmt::Formatter<W>) -> fmt::Result {
        f.write_str(match self {
            Why::Word =>
                "no such word: size, luma, chroma, scan, depth, qp, hiding, values or shown",
            Why::Size => "the size is 4, 8, 16 or 32",
            Why::Scan => "the scan is diagonal, rows or columns",
            Why::Depth => "the depth is 8 to 16",
            Why::Qp => "the QP is 0 to 51",
            Why::Values => "the values are 130 bytes in lower-case hexadecimal",
            Why::Behind => "nothing may stand here",
            Why::Level => "not a level: a number to 2147483647 with its sign, or a dot",
            Why::Many => "more levels than the row has",
            Why::Few => "the row ends before all its levels",
            Why::Row => "no such row",
            Why::Rows => "more rows than the size says",
            Why::NoSize => "no size was given",
            Why::Late => "words stand before the rows, and an empty line or a dot behind them",
            Why::Long => "a line has at most 4095 letters",
        })
    }
}

// Bad input: from a place of the line on, and why.
#[derive(Clone, Copy)]
pub struct BadInput {
    pub at: usize,
    pub why: Why,
}

// `bad input: line 3, column 8: ..`; columns are counted from 1.
pub fn bad(to: &impl Print, line: u64, b: BadInput) -> io::Result<()> {
    write::text(to, b"bad input: line ")?;
    write::decimal(to, line)?;
    write::text(to, b", column ")?;
    if b.at < 4096 {
        write::count(to, b.at + 1)?;
    }
    write::text(to, b": ")?;
    to.print(b.why)?;
    write::end_line(to)
}

// The drawing ended in a line, and a row has not n levels.
pub fn missing(to: &impl Print, line: u64, row: usize, n: usize) -> io::Result<()> {
    write::text(to, b"bad input: line ")?;
    write::decimal(to, line)?;
    write::text(to, b", column 1: the drawing ends before row ")?;
    write::count(to, row)?;
    write::text(to, b" has its ")?;
    write::count(to, n)?;
    write::text(to, b" levels\n")
}

fn why_not(to: &impl Print, number: u32) -> io::Result<()> {
    match number {
        4 => write::text(to, b"a parameter is out of its limits"),
        8 => write::text(to, b"a level is out of range"),
        9 => write::text(to, b"all levels are zero"),
        11 => write::text(to, b"a hidden sign disagrees with its parity"),
        22 => write::text(
            to,
            b"its payload would be longer than the 4096 bytes of a frame",
        ),
        _ => write::text(to, b"another reason"),
    }
}

// The number and its words; a place and a change may follow in the line.
pub fn refused(to: &impl Print, line: u64, number: u32) -> io::Result<()> {
    write::text(to, b"the drawing of line ")?;
    write::decimal(to, line)?;
    write::text(to, b": no picture can hold it, number ")?;
    write::decimal(to, number as u64)?;
    write::text(to, b": ")?;
    why_not(to, number)
}

pub fn end_line(to: &impl Print) -> io::Result<()> {
    write::text(to, b"\n")
}

// Row and column of a place, row by row.
fn row_and_column(to: &impl Print, n: usize, i: usize) -> io::Result<()> {
    if n == 0 {
        return Ok(());
    }
    write::text(to, b" in row ")?;
    write::count(to, i / n)?;
    write::text(to, b", column ")?;
    write::count(to, i % n)
}

pub fn far(to: &impl Print, n: usize, i: usize, v: i32) -> io::Result<()> {
    write::text(to, b": ")?;
    write::signed(to, v)?;
    row_and_column(to, n, i)
}

// The four rows or columns of a sub-block.
fn four(to: &impl Print, word: &[u8], k: u32) -> io::Result<()> {
    if 7 < k {
        return Ok(());
    }
    write::text(to, word)?;
    write::count(to, (4 * k) as usize)?;
    write::text(to, b" to ")?;
    write::count(to, (4 * k + 3) as usize)
}

pub fn off(to: &impl Print, x: u32, y: u32) -> io::Result<()> {
    four(to, b": in rows ", y)?;
    four(to, b", columns ", x)
}

pub fn instead(to: &impl Print, n: usize, i: usize, old: i32, new: i32) -> io::Result<()> {
    write::text(to, b"; it could be held with ")?;
    write::signed(to, new)?;
    write::text(to, b" for ")?;
    write::signed(to, old)?;
    row_and_column(to, n, i)
}

pub fn nothing_does(to: &impl Print) -> io::Result<()> {
    write::text(to, b"; no single change of a level would do")
}
