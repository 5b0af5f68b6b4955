// Heat maps: how often, of the blocks of a size, each place held a level. As text a character for each place, with the numbers of rows and columns: a space for
// never, then .:-=+*#%@ up to always. As a PGM picture a grey from 0 to 255.
// These functions promise nothing but to end: the steps are heat's, what stands at a place is figures'.
ghost use Rattle.std.specs.Prelude.{◌+◌, ◌*◌, ◌≤◌, ◌<◌};

use figures::add::Totals;
use figures_read::out::at_place;
use grid_places::places::{place, side};
use heat::{grey, mark, shade};
use std::io;
use text::write;

// What was added up of the blocks of a size: of each place how often it held a level, the sums and the greatest magnitudes; and the totals.
#[derive(Clone, Copy)]
pub struct Blocks<'a> {
    pub held: &'a [u32; 1024],
    pub sums: &'a [u64; 1024],
    pub greatests: &'a [u32; 1024],
    pub totals: Totals,
}

impl<'a> Blocks<'a> {
    // How many blocks held a level at a place.
    fn count(self, place: usize) -> u32 {
        at_place(self.held, self.sums, self.greatests, self.totals, place).blocks
    }

    // A place's shade.
    fn shade(self, place: usize) -> u64 {
        shade(self.count(place), self.totals.accepted)
    }

    fn side(self) -> usize
        ensures { result ≤ 32 }
    {
        side(self.totals.log2)
    }
}

fn character(out: &impl Print, b: u8) -> io::Result<()> {
    let alone = [b];
    write::text(out, &alone)
}

// Two digits.
fn row_number(out: &impl Print, row: usize) -> io::Result<()> {
    if row < 10 {
        write::text(out, b" ")?;
    }
    write::count(out, row)
}

// The last digits of the columns' numbers.
fn columns(out: &impl Print, n: usize) -> io::Result<()> {
    for i in 0..n {
        write::count(out, i % 10)?;
    }
    Ok(())
}

fn row_of(out: &impl Print, b: Blocks, row: usize) -> io::Result<()>
    requires { row < 32 }
{
    let n = b.side();
    for i in 0..n {
        character(out, mark(b.shade(place(b.totals.log2, row, i))))?;
    }
    Ok(())
}

// A title, of a size that has blocks.
fn title(out: &impl Print, size: &[u8]) -> io::Result<()> {
    write::end_line(out)?;
    write::text(out, size)?;
    write::line(
        out,
        b": how often each place held a level, ' .:-=+*#%@' from never to always",
    )
}

pub fn of_one(out: &impl Print, size: &[u8], b: Blocks) -> io::Result<()> {
    if b.totals.accepted == 0 {
        return Ok(());
    }
    title(out, size)?;
    let n = b.side();
    more_columns(out, n)?;
    write::end_line(out)?;
    for row in 0..n {
        row_number(out, row)?;
        write::text(out, b" ")?;
        row_of(out, b, row)?;
        write::line(out, b"|")?;
    }
    Ok(())
}

// + where the character rose from yesterday to today, - where it fell, a dot where it is the same and no space.
fn sign(out: &impl Print, yesterday: u64, today: u64) -> io::Result<()> {
    if yesterday < today {
        return write::text(out, b"+");
    }
    if today < yesterday {
        return write::text(out, b"-");
    }
    if today == 0 {
        return write::text(out, b" ");
    }
    write::text(out, b".")
}

fn change_of(out: &impl Print, yesterday: Blocks, today: Blocks, row: usize) -> io::Result<()>
    requires { row < 32 }
{
    let n = today.side();
    for i in 0..n {
        let p = place(today.totals.log2, row, i);
        sign(out, yesterday.shade(p), today.shade(p))?;
    }
    Ok(())
}

// A row of both days, and what changed beside it where that fits into 80 columns.
fn both_rows(out: &impl Print, yesterday: Blocks, today: Blocks, row: usize) -> io::Result<()>
    requires { row < 32 }
{
    row_number(out, row)?;
    write::text(out, b" ")?;
    row_of(out, yesterday, row)?;
    write::text(out, b"|  ")?;
    row_of(out, today, row)?;
    write::text(out, b"|")?;
    if today.side() < 32 {
        write::text(out, b"  ")?;
        change_of(out, yesterday, today, row)?;
        write::text(out, b"|")?;
    }
    write::end_line(out)
}

// The numbers of the columns above one map more.
fn more_columns(out: &impl Print, n: usize) -> io::Result<()> {
    write::text(out, b"   ")?;
    columns(out, n)
}

// What changed, below both days.
fn changes_below(out: &impl Print, yesterday: Blocks, today: Blocks) -> io::Result<()> {
    let n = today.side();
    more_columns(out, n)?;
    write::end_line(out)?;
    for row in 0..n {
        row_number(out, row)?;
        write::text(out, b" ")?;
        change_of(out, yesterday, today, row)?;
        write::line(out, b"|")?;
    }
    Ok(())
}

// Yesterday's, today's and what changed.
pub fn of_both(out: &impl Print, size: &[u8], yesterday: Blocks, today: Blocks) -> io::Result<()> {
    if (yesterday.totals.accepted == 0) & (today.totals.accepted == 0) {
        return Ok(());
    }
    title(out, size)?;
    write::line(
        out,
        b"yesterday, today, and + where more often, - where less",
    )?;
    let n = today.side();
    more_columns(out, n)?;
    more_columns(out, n)?;
    if n < 32 {
        more_columns(out, n)?;
    }
    write::end_line(out)?;
    for row in 0..n {
        both_rows(out, yesterday, today, row)?;
    }
    if n == 32 {
        changes_below(out, yesterday, today)?;
    }
    Ok(())
}

fn greys_of(out: &impl Print, b: Blocks, row: usize) -> io::Result<()>
    requires { row < 32 }
{
    let n = b.side();
    for i in 0..n {
        if 0 < i {
            write::text(out, b" ")?;
        }
        let p = place(b.totals.log2, row, i);
        write::decimal(out, grey(b.count(p), b.totals.accepted))?;
    }
    Ok(())
}

// A PGM picture, as text: P2, its sides, its white, and a line of greys for each row.
pub fn picture(out: &impl Print, b: Blocks) -> io::Result<()> {
    let n = b.side();
    write::line(out, b"P2")?;
    write::count(out, n)?;
    write::text(out, b" ")?;
    write::count(out, n)?;
    write::end_line(out)?;
    write::line(out, b"255")?;
    for row in 0..n {
        greys_of(out, b, row)?;
        write::end_line(out)?;
    }
    Ok(())
}
