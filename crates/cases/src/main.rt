// Answers records by the entry points, and holds each answer to the one that is wanted. A record is a line of standard input:
//
//     kind key=value key=value .. => result
//
// Fields are parted by one space; numbers are decimal, bytes hexadecimal, a dash where there are none. The kinds, their keys and results stand
// at the head of engine.rt, blocks.rt, writes.rt, trays.rt, packs.rt, scales.rt, values.rt, slices.rt and h264.rt. A key that is not given:
//
//     p        parameters: log2, luma, scan, hiding, skip allowed, transquant bypass, persistent Rice, skip context, explicit RDPCM,
//              implicit RDPCM, inter, alignment, extended precision, depth; 2,1,0,0,0,0,0,0,0,0,0,0,0,8
//     state    range, offset, position, ended, total past the end; that of a start on the payload, and where it refuses `at=start`
//     ctx      130 contexts, of H.264 40; 64 of each. stats: four statistics; 0 of each
//     places   how many places are lent, room: how many bytes; 1,032 (of a tray 4,864) and 73,728, and no more can be lent
//     skip, rdpcm    0 and -1
//
// A line that begins with # is a remark. It is written as it stands, and behind it how many records agreed before the next one; of a
// record that does not agree the line, what was answered and what is wanted. A line that begins with ! is a record with a wrong result, to show
// that it is told apart. Whatever else is no record: a key that is unknown, missing, twice or without a value, a value that its key
// cannot have, a line without the arrow, a result or a line feed, one of more than 262,143 letters, a payload or list of more than 73,728 bytes.
#![tactic(auto)]

mod kinds; // kinds.rt: which record has which keys, and is answered by which function
mod scales; // scales.rt: cross-component scales
mod slices; // slices.rt: whole slices, bin by bin
mod values; // values.rt: initialisation

use case_lent::lent::LIST;
use case_text::answer::{Answer, Fault};
use case_text::record;
use std::io;
use std::io::Read;
use text::lines::{Line, Window, part};
use text::{lines, write};

// The longest line, with its line feed.
const LINE: usize = 262144;

// No run comes near it: it keeps the sums from wrapping.
const MOST: u32 = 1000000000;

// What a line turns out to be.
#[derive(Clone, Copy, PartialEq, Eq)]
enum Outcome {
    Agrees,
    Wrong,
    NoRecord,
    Later,
    Remark,
}

// How many lines were each, and how many records there were. Those that agreed are counted from the last remark on.
#[derive(Clone, Copy)]
struct Tally {
    agreed: u32,
    wrong: u32,
    no_records: u32,
    later: u32,
    records: u32,
}

fn one_more(n: u32) -> u32 {
    if n < MOST { n + 1 } else { n }
}

impl Tally {
    fn count(&mut self, line: Outcome) {
        match line {
            Outcome::Agrees => {
                self.agreed = one_more(self.agreed);
                self.records = one_more(self.records);
            }
            Outcome::Wrong => {
                self.wrong = one_more(self.wrong);
                self.records = one_more(self.records);
            }
            Outcome::NoRecord => self.no_records = one_more(self.no_records),
            Outcome::Later => self.later = one_more(self.later),
            Outcome::Remark => {}
        }
    }

    // Says how many agreed, and counts from here on.
    fn agreed(&mut self, out: &impl Print) -> io::Result<()> {
        if 0 < self.agreed {
            said(out, self.agreed, b" ok\n")?;
            self.agreed = 0;
        }
        Ok(())
    }

    fn total(&mut self, out: &impl Print) -> io::Result<()> {
        self.agreed(out)?;
        said(out, self.no_records, b" lines are no records, ")?;
        said(out, self.later, b" are records of later requests\n")?;
        said(out, self.records, b" records, ")?;
        said(out, self.wrong, b" wrong\n")
    }
}

// A number of the tally, with what it counts.
fn said(out: &impl Print, n: u32, what: &[u8]) -> io::Result<()> {
    write::decimal32(out, n)?;
    write::text(out, what)
}

// A line of output: a word before a text.
fn told(out: &impl Print, word: &[u8], s: &[u8]) -> io::Result<()> {
    write::text(out, word)?;
    write::line(out, s)
}

// Of a long line its first letters.
fn no_record(out: &impl Print, s: &[u8]) -> io::Result<Outcome> {
    told(out, b"not a record: ", part(s, 0, 160))?;
    Ok(Outcome::NoRecord)
}

// What belongs to request (xii), the state that a refusal reached, is no part of an answer yet.
fn without_reached(s: &[u8], from: usize) -> &[u8] {
    match record::place_of(s, from, b"reached") {
        Some(at) if 0 < at => part(s, 0, at - 1),
        _ => s,
    }
}

// Whether a record is answered.
fn is_answered(r: Result<(), Fault>) -> io::Result<bool> {
    match r {
        Ok(()) => Ok(true),
        Err(Fault::NoRecord) => Ok(false),
        Err(Fault::Unwritten(e)) => Err(e),
    }
}

// The record, what was answered, and what is wanted from a place on.
fn show<P: Print>(
    out: &P,
    word: &[u8],
    s: &[u8],
    from: usize,
    bytes: &mut [u8; LIST],
) -> io::Result<()> {
    told(out, word, part(s, 0, from))?;
    write::text(out, b"  answered ")?;
    let mut shown = Answer::Shown(out);
    is_answered(kinds::answer(&mut shown, s, bytes))?;
    told(out, b"\n  wanted   ", part(s, from, s.len()))
}

// A record whose result, from a place on, is to agree or not to.
fn judged<P: Print>(
    out: &P,
    s: &[u8],
    from: usize,
    agrees: bool,
    bytes: &mut [u8; LIST],
) -> io::Result<Outcome> {
    let mut held: Answer<'_, P> = Answer::wanted(s, from);
    if !is_answered(kinds::answer(&mut held, s, bytes))? {
        return no_record(out, s);
    }
    match (held.is_wanted(), agrees) {
        (true, true) => Ok(Outcome::Agrees),
        (false, false) => {
            show(out, b"told apart: ", s, from, bytes)?;
            Ok(Outcome::Agrees)
        }
        _ => {
            show(out, b"WRONG: ", s, from, bytes)?;
            Ok(Outcome::Wrong)
        }
    }
}

fn parted(out: &impl Print, s: &[u8], agrees: bool, bytes: &mut [u8; LIST]) -> io::Result<Outcome> {
    let Some(at) = record::arrow(s) else {
        return no_record(out, s);
    };
    let from = at + 4;
    if s.len() <= from {
        return no_record(out, s);
    }
    let line = part(s, 0, at);
    if kinds::has_keys(line) {
        return judged(out, without_reached(s, from), from, agrees, bytes);
    }
    if kinds::is_later(line) {
        told(out, b"not a record yet: ", record::first(line))?;
        return Ok(Outcome::Later);
    }
    no_record(out, s)
}

fn lined(out: &impl Print, s: &[u8], bytes: &mut [u8; LIST]) -> io::Result<Outcome> {
    match s {
        [] => no_record(out, s),
        [b'#', ..] => Ok(Outcome::Remark),
        [b'!', record @ ..] => parted(out, record, false, bytes),
        _ => parted(out, s, true, bytes),
    }
}

// A line of the input. A remark is written as it stands, behind the number of records that agreed before it.
fn taken(out: &impl Print, tally: &mut Tally, s: &[u8], bytes: &mut [u8; LIST]) -> io::Result<()> {
    let line = lined(out, s, bytes)?;
    tally.count(line);
    if line == Outcome::Remark {
        tally.agreed(out)?;
        write::line(out, s)?;
    }
    Ok(())
}

// What goes on from line to line. Behind the front of a line that is too long its tail is left out.
#[derive(Clone, Copy)]
struct Held {
    window: Window,
    tail: bool,
}

// A line that has its line feed and is no tail.
fn whole(
    out: &impl Print,
    tally: &mut Tally,
    s: &[u8],
    cut: bool,
    tail: bool,
    bytes: &mut [u8; LIST],
) -> io::Result<()> {
    if tail {
        return Ok(());
    }
    if cut {
        tally.count(no_record(out, s)?);
        return Ok(());
    }
    taken(out, tally, s, bytes)
}

// What goes on behind the next line; nothing where the input has ended.
fn turn(
    input: &mut impl Read,
    out: &impl Print,
    buffer: &mut [u8; LINE],
    bytes: &mut [u8; LIST],
    tally: &mut Tally,
    h: Held,
) -> io::Result<Option<Held>> {
    let window = h.window;
    match lines::next(input, buffer, window)? {
        Line::Is(from, to, left) => {
            let cut = left.from == to;
            whole(out, tally, part(buffer, from, to), cut, h.tail, bytes)?;
            Ok(Some(Held {
                window: left,
                tail: false,
            }))
        }
        Line::Ended => Ok(None),
        Line::TooLong => {
            whole(out, tally, b"a line that is too long", true, h.tail, bytes)?;
            Ok(Some(Held {
                window: lines::nothing_read(),
                tail: true,
            }))
        }
    }
}

// Nothing says that the input ends: no run uses up so many turns.
fn turns(
    input: &mut impl Read,
    out: &impl Print,
    buffer: &mut [u8; LINE],
    bytes: &mut [u8; LIST],
    tally: &mut Tally,
) -> io::Result<()> {
    let mut h = Held {
        window: lines::nothing_read(),
        tail: false,
    };
    for _ in 0..u64::MAX {
        match turn(input, out, buffer, bytes, tally, h)? {
            Some(next) => h = next,
            None => return tally.total(out),
        }
    }
    Ok(())
}

fn main(rt: HostRuntime) -> io::Result<()> {
    let mut buffer = [0u8; LINE];
    let mut bytes = [0u8; LIST];
    let mut tally = Tally {
        agreed: 0,
        wrong: 0,
        no_records: 0,
        later: 0,
        records: 0,
    };
    turns(
        &mut rt.stdin(),
        &rt.stdout(),
        &mut buffer,
        &mut bytes,
        &mut tally,
    )
}
