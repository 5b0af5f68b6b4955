// The table: numbers in columns on the left, of one book or of two with what changed, and what they count in words on the right.
// These functions promise nothing but to end; what they are handed is morning_sums' and figures'.
ghost use Rattle.std.specs.Prelude.{◌≡◌, ◌≤◌};

use crate::words::reason;
use figures_read::out::tally_of;
use morning_add::adding::{One, Sizes};
use std::io;
use text::write;

// What was counted in a book.
#[derive(Clone, Copy)]
pub struct Counted<'a> {
    pub lines: u64,
    pub sizes: Sizes,
    pub tallies: &'a [u32; 24],
}

// Of one book, or of two: yesterday's and today's.
#[derive(Clone, Copy)]
pub enum Days<T> {
    One(T),
    Two(T, T),
}

impl<T: Copy> Days<T> {
    // What a function gives of each.
    fn map<U, F: Fn(T) -> U>(self, f: F) -> Days<U>
        requires { F.IsAlwaysCallable f }
    {
        match self {
            Days::One(t) => Days::One(f(t)),
            Days::Two(yesterday, today) => Days::Two(f(yesterday), f(today)),
        }
    }
}

fn spaces(out: &impl Print, n: usize) -> io::Result<()> {
    for _ in 0..n {
        write::text(out, b" ")?;
    }
    Ok(())
}

// How many digits a number has.
fn digits(n: u64) -> usize
    ensures { (1 ≤ result) × (result ≤ 20) }
{
    let mut rest = n / 10;
    for k in 1..20 {
        if rest == 0 {
            return k;
        }
        rest /= 10;
    }
    20
}

// Right in a column of 12.
fn number(out: &impl Print, n: u64) -> io::Result<()> {
    let k = digits(n);
    if k < 12 {
        spaces(out, 12 - k)?;
    }
    write::decimal(out, n)
}

fn signed(out: &impl Print, sign: &[u8], n: u64) -> io::Result<()> {
    let k = digits(n);
    if k < 11 {
        spaces(out, 11 - k)?;
    }
    write::text(out, sign)?;
    write::decimal(out, n)
}

// Today's less yesterday's, with its sign.
fn change(out: &impl Print, yesterday: u64, today: u64) -> io::Result<()> {
    if yesterday == today {
        spaces(out, 11)?;
        return write::text(out, b"=");
    }
    if yesterday < today {
        return signed(out, b"+", today - yesterday);
    }
    signed(out, b"-", yesterday - today)
}

// The numbers of a line, of two with what changed; the words come behind them.
fn numbers(out: &impl Print, n: Days<u64>) -> io::Result<()> {
    match n {
        Days::One(n) => number(out, n)?,
        Days::Two(yesterday, today) => {
            number(out, yesterday)?;
            number(out, today)?;
            change(out, yesterday, today)?;
        }
    }
    write::text(out, b"  ")
}

pub fn heading(out: &impl Print) -> io::Result<()> {
    write::line(out, b"   yesterday       today      change")
}

fn blocks_of(out: &impl Print, size: &[u8]) -> io::Result<()> {
    write::text(out, b"blocks of ")?;
    write::line(out, size)
}

fn past_of(out: &impl Print, size: &[u8]) -> io::Result<()> {
    write::text(out, b"bits past the end, ")?;
    write::line(out, size)
}

fn left_out(out: &impl Print, day: &[u8], full: bool, size: &[u8]) -> io::Result<()> {
    if full {
        write::text(out, day)?;
        write::text(out, b"more than 4,096 blocks of ")?;
        write::text(out, size)?;
        write::line(out, b": the rest is not counted")?;
    }
    Ok(())
}

fn size(out: &impl Print, name: &[u8], o: Days<One>) -> io::Result<()> {
    numbers(out, o.map(|o| u64::from(o.totals.accepted)))?;
    blocks_of(out, name)?;
    numbers(out, o.map(|o| o.totals.past))?;
    past_of(out, name)?;
    match o {
        Days::One(o) => left_out(out, b"", o.full, name),
        Days::Two(yesterday, today) => {
            left_out(out, b"yesterday: ", yesterday.full, name)?;
            left_out(out, b"today: ", today.full, name)
        }
    }
}

fn refused(out: &impl Print, n: u32) -> io::Result<()> {
    write::text(out, b"refused by ")?;
    write::decimal32(out, n)?;
    write::text(out, b": ")?;
    reason(out, n)?;
    write::end_line(out)
}

// Whether a number was given on a day.
fn given(times: Days<u32>) -> bool {
    match times {
        Days::One(n) => n != 0,
        Days::Two(yesterday, today) => (yesterday != 0) | (today != 0),
    }
}

// Each number that was given; a tally stops at 65,535.
fn refusals(out: &impl Print, days: Days<Counted>) -> io::Result<()> {
    for n in 1..25 {
        let times = days.map(|c| tally_of(c.tallies, c.sizes.of4.totals, n).count);
        if given(times) {
            numbers(out, times.map(|k| u64::from(k)))?;
            refused(out, n)?;
        }
    }
    Ok(())
}

pub fn of(out: &impl Print, days: Days<Counted>) -> io::Result<()> {
    numbers(out, days.map(|c| c.lines))?;
    write::line(out, b"lines")?;
    size(out, b"4x4", days.map(|c| c.sizes.of4))?;
    size(out, b"8x8", days.map(|c| c.sizes.of8))?;
    size(out, b"16x16", days.map(|c| c.sizes.of16))?;
    size(out, b"32x32", days.map(|c| c.sizes.of32))?;
    refusals(out, days)
}
