// Reads a book of test pieces from standard input and writes a line for each of its lines to standard output: `N ok GREATEST PAST` or `N no NUMBER`.
// At the end standard error has the count of frames, of ok and of each number in words; a terminal there is told now and then how far the reading is.
// A piece is read and fed, and what it gave is written: book_answers::answering says what that is, and that no cut into pieces matters.
#![tactic(auto)]

mod words; // words.rt: what standard error is told

ghost use Rattle.std.specs.Prelude.{◌≡◌, ◌+◌, ◌*◌, ◌≤◌, ◌<◌, length, IfOk, IfSome};

use book_answering::answering::{feed, finish};
use book_answers::tally::NUMBERS;
use book_lines::pending::{Pending, first};
use std::alloc::Global;
use std::io;
use std::io::{IsTerminal, Read};
use text::fail::fail;

// A piece has at most 4,096 bytes. The room holds an answer for each of them.
const ROOM: usize = 286720;

// More pieces than any input has: nothing says that the input ends, so the loop counts down.
const TURNS: u64 = 2251799813685248;

// False, and a word on standard error, where the answers could not be written.
fn written(to: &impl Print, err: &impl Print, alloc: Global, out: &[u8]) -> io::Result<bool> {
    match to.write_all(out) {
        Ok(()) => Ok(true),
        Err(e) => {
            fail(err, alloc, b"the answers", &e)?;
            Ok(false)
        }
    }
}

// The end of the book.
fn end(
    to: &impl Print,
    err: &impl Print,
    alloc: Global,
    line: &[u8],
    tally: &mut [u64],
    out: &mut [u8],
    p: Pending,
) -> io::Result<()>
    requires { (length line.now ≡ 8469) × (p.held ≤ 8469) × (length out.old ≡ 286720) × (1 ≤ p.number) × (p.number < 18446744073709551615) }
{
    let s = finish(line, p, tally, out);
    let n = s.out;
    let behind = s.line.number;
    if written(to, err, alloc, &out[..n])? {
        words::ended(err, behind - 1, tally)?;
    }
    Ok(())
}

// A piece is fed, and what it gave written; none where that failed.
fn fed(
    to: &impl Print,
    err: &impl Print,
    alloc: Global,
    piece: &[u8],
    line: &mut [u8],
    tally: &mut [u64],
    out: &mut [u8],
    p: Pending,
) -> io::Result<Option<Pending>>
    requires { (length piece.now ≤ 4096) × (length line.old ≡ 8469) × (p.held ≤ 8469) × (length out.old ≡ 286720) × (p.number + 4096 < 18446744073709551615) }
    ensures { IfOk result (λ r. IfSome r (λ next. (next.held ≤ 8469) × (next.number ≤ p.number + 4096) × (p.number ≤ next.number))) }
{
    let s = feed(piece, line, p, tally, out);
    let n = s.out;
    if !written(to, err, alloc, &out[..n])? {
        return Ok(None);
    }
    Ok(Some(s.line))
}

// One piece; none at the end, or where reading or writing failed.
fn turn(
    input: &mut impl Read,
    to: &impl Print,
    err: &impl Print,
    alloc: Global,
    piece: &mut [u8],
    line: &mut [u8],
    tally: &mut [u64],
    out: &mut [u8],
    p: Pending,
) -> io::Result<Option<Pending>>
    requires { (length piece.old ≡ 4096) × (length line.old ≡ 8469) × (p.held ≤ 8469) × (length out.old ≡ 286720) × (1 ≤ p.number) × (p.number + 4096 < 18446744073709551615) }
    ensures { IfOk result (λ r. IfSome r (λ next. (next.held ≤ 8469) × (next.number ≤ p.number + 4096) × (p.number ≤ next.number))) }
{
    match input.read(piece) {
        Ok(0) => {
            end(to, err, alloc, line, tally, out, p)?;
            Ok(None)
        }
        Ok(n) => fed(to, err, alloc, &piece[..n], line, tally, out, p),
        Err(e) => {
            fail(err, alloc, b"the book", &e)?;
            Ok(None)
        }
    }
}

fn turns(
    input: &mut impl Read,
    to: &impl Print,
    err: &impl Print,
    alloc: Global,
    piece: &mut [u8],
    line: &mut [u8],
    tally: &mut [u64],
    out: &mut [u8],
    told: bool,
) -> io::Result<()>
    requires { (length piece.old ≡ 4096) × (length line.old ≡ 8469) × (length out.old ≡ 286720) }
{
    let mut p = first();
    for left in (0..TURNS).rev() {
        let Some(next) = turn(input, to, err, alloc, piece, line, tally, out, p)? else {
            return Ok(());
        };
        p = next;
        words::so_far(err, told, left, p.number)?;
    }
    Ok(())
}

fn main(rt: HostRuntime) -> io::Result<()> {
    let err = rt.stderr();
    let mut piece = [0u8; 4096];
    let mut line = [0u8; 8469];
    let mut tally = [0u64; NUMBERS];
    let mut out = [0u8; ROOM];
    turns(
        &mut rt.stdin(),
        &rt.stdout(),
        &err,
        rt.alloc(),
        &mut piece,
        &mut line,
        &mut tally,
        &mut out,
        err.is_terminal(),
    )
}
