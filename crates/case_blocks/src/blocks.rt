// Records of the two block readers, and of the plain ones (request (xi)).
//
//     block payload [state p ctx stats places] => answer skip rdpcm column row greatest levels state changes stats
//     list list or list1 [p stats places] => answer skip rdpcm column row greatest levels stats
//     plainblock, plainlist: the same
//
// At a refusal: answer memory. A list that is accepted must be the one that the bin writer makes of its block.
use crate::coder::Coder;
use crate::writes::is_list_of;
use bins::state::Engine;
use case_lent::lent::{MARK, front, holds};
use case_text::answer::{Answer, Fault};
use case_text::given;
use case_text::given::{Lent, PLACES};
use case_text::record::value;
use hevc_residual::answers::{Found, ReadBlock};
use hevc_residual::params::{Params, Rdpcm};
use std::io;

// n·n of an accepted size; no other block is written to.
pub fn area(log2: u32) -> usize {
    match log2 {
        2 => 16,
        3 => 64,
        4 => 256,
        5 => 1024,
        _ => 0,
    }
}

// The levels from a place on, and before another, that are not 0.
pub fn levels(
    a: &mut Answer<'_, impl Print>,
    block: &[i32],
    from: usize,
    end: usize,
) -> io::Result<()> {
    let mut none = true;
    for i in from..end {
        if block.len() <= i {
            *a = Answer::Other;
            return Ok(());
        }
        if block[i] != 0 {
            a.place(none, i - from)?;
            a.signed(block[i])?;
            none = false;
        }
    }
    a.unless(!none, b"-")
}

// The levels of a block, with the places behind it as they were.
pub fn all_levels(
    a: &mut Answer<'_, impl Print>,
    block: &[i32; PLACES],
    end: usize,
) -> io::Result<()> {
    levels(a, block, 0, end)?;
    a.unless(holds(block, end, PLACES, MARK), b" behind=changed")
}

fn rdpcm(r: Rdpcm) -> u32 {
    match r {
        Rdpcm::None => 0,
        Rdpcm::Horizontal => 1,
        Rdpcm::Vertical => 2,
    }
}

// A direction by its number, which is one more than the record's.
pub fn direction(a: &mut Answer<'_, impl Print>, n: u32) -> io::Result<()> {
    if n == 0 {
        return a.text(b"-1");
    }
    a.decimal(u64::from(n - 1))
}

fn found(
    a: &mut Answer<'_, impl Print>,
    f: Found,
    block: &[i32; PLACES],
    end: usize,
) -> io::Result<()> {
    let choice = f.rdpcm;
    let n = [
        u64::from(f.skip),
        u64::from(f.column),
        u64::from(f.row),
        u64::from(f.greatest),
    ];
    a.form(b"answer=0 skip=$0 rdpcm=", &n)?;
    direction(a, rdpcm(choice))?;
    a.form(b" column=$1 row=$2 greatest=$3 levels=", &n)?;
    all_levels(a, block, end)
}

// What a refusal left of the places that were lent.
pub fn refused(
    a: &mut Answer<'_, impl Print>,
    n: u32,
    block: &[i32; PLACES],
    end: usize,
) -> io::Result<()> {
    a.refusal(n)?;
    if holds(block, 0, PLACES, MARK) {
        return a.text(b" memory=untouched");
    }
    if holds(block, 0, end, 0) & holds(block, end, PLACES, MARK) {
        return a.text(b" memory=zero");
    }
    a.text(b" memory=changed")
}

fn block_of(
    a: &mut Answer<'_, impl Print>,
    coder: Coder,
    bytes: &[u8],
    e: Engine,
    p: Params,
    lent: &Lent,
    places: usize,
) -> io::Result<()> {
    let mut block = [MARK; PLACES];
    let mut after = *lent;
    let r = coder.read(bytes, e, &mut after, p, front(&mut block, places));
    let end = area(p.log2);
    match r {
        Ok(
            ReadBlock {
                found: f,
                state: next,
            },
        ) => {
            found(a, f, &block, end)?;
            a.state(b" state=", next)?;
            a.changes(&lent.contexts, &after.contexts)?;
            a.statistics(&after.stats)
        }
        Err(n) => {
            refused(a, n, &block, end)?;
            a.unless(after == *lent, b" ctx=changed")
        }
    }
}

pub fn block(
    a: &mut Answer<'_, impl Print>,
    s: &[u8],
    coder: Coder,
    bytes: &[u8],
    e: Engine,
    places: usize,
) -> Result<(), Fault> {
    let lent = Lent::of(s).ok_or(Fault::NoRecord)?;
    let p = given::params(value(s, b"p")).ok_or(Fault::NoRecord)?;
    block_of(a, coder, bytes, e, p, &lent, places)?;
    Ok(())
}

fn list_of(
    a: &mut Answer<'_, impl Print>,
    coder: Coder,
    bins: &[u8],
    p: Params,
    stats: &[u8; 4],
    places: usize,
) -> io::Result<()> {
    let mut block = [MARK; PLACES];
    let mut left = *stats;
    let r = coder.read_list(bins, &mut left, p, front(&mut block, places));
    let end = area(p.log2);
    match r {
        Ok(f) => {
            found(a, f, &block, end)?;
            a.statistics(&left)?;
            let right = is_list_of(coder, p, stats, &block, f, bins, &left);
            a.unless(right, b" again=differs")
        }
        Err(n) => {
            refused(a, n, &block, end)?;
            a.unless(left == *stats, b" stats=changed")
        }
    }
}

pub fn list(
    a: &mut Answer<'_, impl Print>,
    s: &[u8],
    coder: Coder,
    bins: &[u8],
    places: usize,
) -> Result<(), Fault> {
    let lent = Lent::of(s).ok_or(Fault::NoRecord)?;
    let p = given::params(value(s, b"p")).ok_or(Fault::NoRecord)?;
    list_of(a, coder, bins, p, &lent.stats, places)?;
    Ok(())
}
