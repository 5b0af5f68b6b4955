// The block as a grid with the numbers of rows and columns, and lines between its 4x4 sub-blocks: a dot for 0; a level of more than half the greatest magnitude
// stands in brackets. What does not fit into 80 columns so goes without brackets, and in panels below one another where it must.
ghost use Rattle.std.specs.Prelude.{◌≤◌};

use grid_places::places::{first_of, side};
use level_sizes::sizes::magnitude;
use show_form::form::{Form, columns_that_fit, digits, form_of, level};
use std::io;
use text::lines::part;
use text::write;

// A sign and the digits.
fn length(v: i32) -> usize
    ensures { result ≤ 9 }
{
    let n = digits(magnitude(v));
    if v < 0 { n + 1 } else { n }
}

fn spaces(out: &impl Print, n: usize) -> io::Result<()> {
    write::text(out, part(b"          ", 0, n))
}

// Right in a cell of a width.
fn number(out: &impl Print, v: i32, width: usize) -> io::Result<()> {
    let n = length(v);
    if n < width {
        spaces(out, width - n)?;
    }
    if v == 0 {
        write::text(out, b".")
    } else {
        write::signed(out, v)
    }
}

fn is_large(v: i32, greatest: u32) -> bool {
    if greatest < 2 {
        return false;
    }
    greatest / 2 < magnitude(v)
}

fn cell(out: &impl Print, v: i32, f: Form) -> io::Result<()> {
    if !f.brackets {
        return number(out, v, f.width);
    }
    let width = digits(f.greatest) + 1;
    if is_large(v, f.greatest) {
        write::text(out, b"[")?;
        number(out, v, width)?;
        return write::text(out, b"]");
    }
    write::text(out, b" ")?;
    number(out, v, width)?;
    write::text(out, b" ")
}

// A row's or a column's number, right in a width.
fn label(out: &impl Print, n: usize, width: usize) -> io::Result<()> {
    let digits = if n < 10 { 1 } else { 2 };
    spaces(out, width.saturating_sub(digits))?;
    write::count(out, n)
}

// A column's number; where cells are narrow, of each sub-block's first alone.
fn head(out: &impl Print, column: usize, width: usize) -> io::Result<()> {
    if column % 4 == 0 {
        write::text(out, b" ")?;
        return label(out, column, width);
    }
    if width < 3 {
        return spaces(out, width);
    }
    label(out, column, width)
}

fn heads(out: &impl Print, from: usize, to: usize, width: usize) -> io::Result<()> {
    for column in from..to {
        head(out, column, width)?;
    }
    write::end_line(out)
}

// The line above a row of sub-blocks.
fn rule(out: &impl Print, from: usize, to: usize, width: usize) -> io::Result<()> {
    spaces(out, 3)?;
    for column in from..to {
        border(out, column, b"+")?;
        write::text(out, part(b"-----------", 0, width))?;
    }
    write::end_line(out)
}

// Before a sub-block's first column.
fn border(out: &impl Print, column: usize, mark: &[u8]) -> io::Result<()> {
    if column % 4 == 0 {
        write::text(out, mark)?;
    }
    Ok(())
}

fn row_of(
    out: &impl Print,
    block: &[i32; 1024],
    log2: u32,
    row: usize,
    from: usize,
    to: usize,
    f: Form,
) -> io::Result<()> {
    label(out, row, 2)?;
    write::text(out, b" ")?;
    let first = first_of(log2, row);
    for column in from..to {
        border(out, column, b"|")?;
        cell(out, level(block, first, column), f)?;
    }
    write::end_line(out)
}

// Before the columns' numbers, which stand above those of the cells: these end one place before a bracket.
fn margin(out: &impl Print, f: Form) -> io::Result<()> {
    if f.brackets {
        spaces(out, 2)
    } else {
        spaces(out, 3)
    }
}

// All rows of some columns.
fn panel(
    out: &impl Print,
    block: &[i32; 1024],
    log2: u32,
    from: usize,
    to: usize,
    f: Form,
) -> io::Result<()> {
    margin(out, f)?;
    heads(out, from, to, f.width)?;
    let n = side(log2);
    for row in 0..n {
        if row % 4 == 0 {
            rule(out, from, to, f.width)?;
        }
        row_of(out, block, log2, row, from, to, f)?;
    }
    Ok(())
}

// Panel by panel.
pub fn levels(out: &impl Print, block: &[i32; 1024], log2: u32, greatest: u32) -> io::Result<()> {
    let f = form_of(log2, greatest);
    let n = side(log2);
    let step = columns_that_fit(f.width);
    for from in (0..n).step_by(step) {
        panel(out, block, log2, from, n.min(from + step), f)?;
    }
    Ok(())
}
