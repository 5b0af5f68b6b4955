// Salvages a spoiled book: standard input is the book, standard output the book that comes out. The report, a line for each line, goes to standard
// error, or to the file that the first argument names, which must be new. At the end standard error has the tally in words.
// A piece is read and fed, and what it gave is written: spoiled_book::salvage says what that is, and that no cut into pieces matters.
#![tactic(auto)]

ghost use Rattle.std.specs.Prelude.{◌≡◌, ◌+◌, ◌*◌, ◌≤◌, ◌<◌, length, IfOk, IfSome};
ghost use Rattle.spoiled.specs.Salvage.{all};

use book_lines::pending::{Pending, first};
use spoiled::tally::Tally;
use spoiled_book::salvage::{feed, finish};
use spoiled_words::tally::{none, put_tally};
use std::alloc::Global;
use std::env::{Env, FillError};
use std::fs::{File, Files};
use std::io::{ErrorKind, Read, Write};
use std::{io, str};
use text::fail::fail;

// A piece has at most 4,096 bytes. The book's room holds all that can be held of a line and a piece behind it, the report's a line for each byte.
const BOOK: usize = 12566;

const REPORT: usize = 262144;

// More pieces than any input has: nothing says that the input ends, so the loop counts to this.
const TURNS: u64 = 2251799813685248;

#[derive(Clone, Copy)]
pub struct Next {
    pub line: Pending,
    pub tally: Tally,
}

// What a piece gave is written, the book to `out` and the report to `to`; false, and a word to `err`, where it could not be.
fn written(
    out: &impl Print,
    err: &impl Print,
    alloc: Global,
    to: &mut impl Write,
    book: &[u8],
    report: &[u8],
) -> io::Result<bool> {
    if let Err(e) = out.write_all(book) {
        fail(err, alloc, b"the book that comes out", &e)?;
        return Ok(false);
    }
    if let Err(e) = to.write_all(report) {
        fail(err, alloc, b"the report", &e)?;
        return Ok(false);
    }
    Ok(true)
}

fn say_tally(err: &impl Print, t: Tally) -> io::Result<()>
    requires { all t < 18446744073709551616 }
{
    let mut words = [0u8; 128];
    let n = put_tally(t, &mut words);
    err.write_all(&words[..n])
}

// The end of the book.
fn end(
    out: &impl Print,
    err: &impl Print,
    alloc: Global,
    to: &mut impl Write,
    line: &mut [u8],
    book: &mut [u8],
    report: &mut [u8],
    p: Pending,
    t: Tally,
) -> io::Result<()>
    requires { (length line.old ≡ 8469) × (p.held ≤ 8469) × (length book.old ≡ 12566) × (length report.old ≡ 262144) × (p.number < 18446744073709551615) × (all t < p.number) }
{
    let s = finish(line, p, t, book, report);
    let b = s.book;
    let r = s.report;
    if written(out, err, alloc, to, &book[..b], &report[..r])? {
        say_tally(err, s.tally)?;
    }
    Ok(())
}

// A piece is fed, and what it gave written; none where that failed.
fn fed(
    out: &impl Print,
    err: &impl Print,
    alloc: Global,
    to: &mut impl Write,
    piece: &[u8],
    line: &mut [u8],
    book: &mut [u8],
    report: &mut [u8],
    p: Pending,
    t: Tally,
) -> io::Result<Option<Next>>
    requires { (length piece.now ≤ 4096) × (length line.old ≡ 8469) × (p.held ≤ 8469) × (length book.old ≡ 12566) × (length report.old ≡ 262144) × (p.number + 4096 < 18446744073709551615) × (all t < p.number) }
    ensures { IfOk result (λ r. IfSome r (λ next. (next.line.held ≤ 8469) × (next.line.number ≤ p.number + 4096) × (all next.tally < next.line.number))) }
{
    let s = feed(piece, line, p, t, book, report);
    let b = s.book;
    let r = s.report;
    if !written(out, err, alloc, to, &book[..b], &report[..r])? {
        return Ok(None);
    }
    Ok(Some(Next {
        line: s.line,
        tally: s.tally,
    }))
}

// One piece; none at the end, or where reading or writing failed.
fn turn(
    input: &mut impl Read,
    out: &impl Print,
    err: &impl Print,
    alloc: Global,
    to: &mut impl Write,
    piece: &mut [u8],
    line: &mut [u8],
    book: &mut [u8],
    report: &mut [u8],
    p: Pending,
    t: Tally,
) -> io::Result<Option<Next>>
    requires { (length piece.old ≡ 4096) × (length line.old ≡ 8469) × (p.held ≤ 8469) × (length book.old ≡ 12566) × (length report.old ≡ 262144) × (p.number + 4096 < 18446744073709551615) × (all t < p.number) }
    ensures { IfOk result (λ r. IfSome r (λ next. (next.line.held ≤ 8469) × (next.line.number ≤ p.number + 4096) × (all next.tally < next.line.number))) }
{
    match input.read(piece) {
        Ok(0) => {
            end(out, err, alloc, to, line, book, report, p, t)?;
            Ok(None)
        }
        Ok(n) => fed(out, err, alloc, to, &piece[..n], line, book, report, p, t),
        Err(e) => {
            fail(err, alloc, b"the spoiled book", &e)?;
            Ok(None)
        }
    }
}

fn turns(
    input: &mut impl Read,
    out: &impl Print,
    err: &impl Print,
    alloc: Global,
    to: &mut impl Write,
    piece: &mut [u8],
    line: &mut [u8],
    book: &mut [u8],
    report: &mut [u8],
) -> io::Result<()>
    requires { (length piece.old ≡ 4096) × (length line.old ≡ 8469) × (length book.old ≡ 12566) × (length report.old ≡ 262144) }
{
    let mut p = first();
    let mut t = none();
    for _turn in 0..TURNS {
        let Some(next) = turn(input, out, err, alloc, to, piece, line, book, report, p, t)? else {
            return Ok(());
        };
        p = next.line;
        t = next.tally;
    }
    Ok(())
}

// All of a book, with the report to `to`.
fn salvage(
    input: &mut impl Read,
    out: &impl Print,
    err: &impl Print,
    alloc: Global,
    to: &mut impl Write,
) -> io::Result<()> {
    let mut piece = [0u8; 4096];
    let mut line = [0u8; 8469];
    let mut book = [0u8; BOOK];
    let mut report = [0u8; REPORT];
    turns(
        input,
        out,
        err,
        alloc,
        to,
        &mut piece,
        &mut line,
        &mut book,
        &mut report,
    )
}

// The new file that the report goes to. An old file is not taken: it could be the book. std opens no name that is not UTF-8.
fn report_file<R: Files>(rt: &R, name: &[u8]) -> io::Result<R::File> {
    match str::from_utf8(name) {
        Ok(path) => File::create_new(rt, path),
        Err(_) => Err(io::Error::from(ErrorKind::InvalidFilename)),
    }
}

// The number of ENAMETOOLONG.
const NAME_TOO_LONG: i32 = 36;

fn main(rt: HostRuntime) -> io::Result<()> {
    let out = rt.stdout();
    let err = rt.stderr();
    let mut input = rt.stdin();
    let mut name = [0u8; 4096];
    match rt.arg(1, &mut name) {
        Ok(n) => match report_file(&rt, &name[..n]) {
            Ok(file) => {
                let mut to = file;
                salvage(&mut input, &out, &err, rt.alloc(), &mut to)
            }
            Err(e) => fail(&err, rt.alloc(), &name[..n], &e),
        },
        Err(FillError::NotPresent) => {
            let mut to = rt.stderr();
            salvage(&mut input, &out, &err, rt.alloc(), &mut to)
        }
        Err(FillError::TooLong) => {
            let e = io::Error::from_raw_os_error(NAME_TOO_LONG);
            fail(&err, rt.alloc(), b"the report's name", &e)
        }
    }
}
