// What standard error is told: how far the reading is, and at the end how many frames there were, how many were ok and how many each number refused.
// These functions promise nothing but to end; the numbers that they are handed are book_answers'.
use std::io;
use text::write;

// Some sixteen megabytes of the book.
const PIECES: u64 = 4096;

// A word to a terminal now and then; the next one, or the count at the end, is written over it.
pub fn so_far(err: &impl Print, told: bool, left: u64, line: u64) -> io::Result<()> {
    if !told {
        return Ok(());
    }
    if left % PIECES != 0 {
        return Ok(());
    }
    write::text(err, b"reading line ")?;
    write::decimal(err, line)?;
    write::text(err, b"\r")
}

fn refused(err: &impl Print, number: usize, times: u64) -> io::Result<()> {
    if times == 0 {
        return Ok(());
    }
    write::text(err, b", ")?;
    write::decimal(err, times)?;
    write::text(err, b" no ")?;
    write::count(err, number)
}

// `N frames: N ok, N no NUMBER, ..`, of the numbers that were given.
pub fn ended(err: &impl Print, frames: u64, tally: &[u64]) -> io::Result<()> {
    write::decimal(err, frames)?;
    if frames == 1 {
        write::text(err, b" frame: ")?;
    } else {
        write::text(err, b" frames: ")?;
    }
    if tally.len() == 0 {
        return Ok(());
    }
    write::decimal(err, tally[0])?;
    write::text(err, b" ok")?;
    for i in 1..tally.len() {
        refused(err, i, tally[i])?;
    }
    write::end_line(err)
}
