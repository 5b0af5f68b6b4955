// The morning figures of a book of test pieces: how many blocks of each size, bits past the end, refusals in words, and for each size a heat map of how
// often each place held a level.
//     morning [BOOK]             of a book, or of standard input
//     morning YESTERDAY TODAY    of two, beside each other, with what changed
//     morning --pgm SIZE [BOOK]  the heat map of a size (4, 8, 16, 32) alone, as a PGM picture
// A book is the name of a file, or - for standard input.
// A piece is read and fed: morning_sums::feeding says what that adds up to, and that no cut into pieces matters.
#![tactic(auto)]

mod source; // source.rt: where a book comes from
mod table; // table.rt: lines of the table, of one book and of two
mod words; // words.rt: refusals in words

ghost use Rattle.std.specs.Prelude.{◌≡◌, ◌+◌, ◌*◌, ◌≤◌, ◌<◌, length, IfOk, IfSome};

use book_lines::pending::first;
use check::same;
use figures::add::Totals;
use morning_add::adding::Sizes;
use morning_add::begin::begin_book;
use morning_maps::maps;
use morning_maps::maps::Blocks;
use morning_sums::feeding::{Feeding, feed, finish};
use source::Source;
use std::alloc::Global;
use std::env::{Env, FillError};
use std::fs::{File, Files};
use std::io::{ErrorKind, Read, Stdin};
use std::{io, str};
use table::{Counted, Days};
use text::fail::fail;
use text::lines::part;
use text::write;

// More pieces than any input has: nothing says that the input ends, so the loop counts to this.
const TURNS: u64 = 2251799813685248;

// What is added up of the blocks of a size: of each place how often it held a level, the sums and the greatest magnitudes.
#[derive(Drop)]
struct Size {
    held: [u32; 1024],
    sums: [u64; 1024],
    greatests: [u32; 1024],
}

impl Size {
    fn blocks(&self, totals: Totals) -> Blocks<'_> {
        Blocks {
            held: &self.held,
            sums: &self.sums,
            greatests: &self.greatests,
            totals,
        }
    }
}

fn no_size() -> Size {
    Size {
        held: [0u32; 1024],
        sums: [0u64; 1024],
        greatests: [0u32; 1024],
    }
}

// What is added up of a book beside its sizes' totals.
#[derive(Drop)]
struct Day {
    of4: Size,
    of8: Size,
    of16: Size,
    of32: Size,
    tallies: [u32; 24],
}

fn no_day() -> Day {
    Day {
        of4: no_size(),
        of8: no_size(),
        of16: no_size(),
        of32: no_size(),
        tallies: [0u32; 24],
    }
}

// A book that was read.
#[derive(Clone, Copy)]
struct Book {
    sizes: Sizes,
    lines: u64,
}

// The next piece, of so many bytes, 0 at the end; none where the book could not be read, which is told.
fn read_piece(
    input: &mut impl Read,
    err: &impl Print,
    alloc: Global,
    piece: &mut [u8],
) -> io::Result<Option<usize>>
    ensures { IfOk result (λ r. IfSome r (λ n. n ≤ length piece.new)) }
{
    match input.read(piece) {
        Ok(n) => Ok(Some(n)),
        Err(e) => {
            fail(err, alloc, b"the book", &e)?;
            Ok(None)
        }
    }
}

// Piece after piece, up to the end; none where the book could not be read.
fn turns(
    input: &mut impl Read,
    err: &impl Print,
    alloc: Global,
    piece: &mut [u8],
    line: &mut [u8],
    sizes: Sizes,
    day: &mut Day,
) -> io::Result<Option<Feeding>>
    requires { (length piece.old ≡ 4096) × (length line.old ≡ 8469) }
    ensures { IfOk result (λ r. IfSome r (λ s. (s.line.held ≤ 8469) × (1 ≤ s.line.number) × (s.line.number ≤ 9223372036854775809))) }
{
    let p = first();
    let mut s = Feeding { line: p, sizes };
    for _turn in 0..TURNS {
        let Some(n) = read_piece(input, err, alloc, piece)? else {
            return Ok(None);
        };
        if n == 0 {
            return Ok(Some(s));
        }
        s = feed(
            &piece[..n],
            line,
            s,
            &mut day.of4.held,
            &mut day.of4.sums,
            &mut day.of4.greatests,
            &mut day.of8.held,
            &mut day.of8.sums,
            &mut day.of8.greatests,
            &mut day.of16.held,
            &mut day.of16.sums,
            &mut day.of16.greatests,
            &mut day.of32.held,
            &mut day.of32.sums,
            &mut day.of32.greatests,
            &mut day.tallies,
        );
    }
    Ok(Some(s))
}

// All of a book; none where it could not be read. Its lines are counted by their numbers, an unfinished one among them.
fn read_book(
    input: &mut impl Read,
    err: &impl Print,
    alloc: Global,
    day: &mut Day,
) -> io::Result<Option<Book>> {
    let mut piece = [0u8; 4096];
    let mut line = [0u8; 8469];
    let sizes = begin_book(
        &mut day.of4.held,
        &mut day.of4.sums,
        &mut day.of4.greatests,
        &mut day.of8.held,
        &mut day.of8.sums,
        &mut day.of8.greatests,
        &mut day.of16.held,
        &mut day.of16.sums,
        &mut day.of16.greatests,
        &mut day.of32.held,
        &mut day.of32.sums,
        &mut day.of32.greatests,
        &mut day.tallies,
    );
    let Some(s) = turns(input, err, alloc, &mut piece, &mut line, sizes, day)? else {
        return Ok(None);
    };
    let t = finish(
        &line,
        s,
        &mut day.of4.held,
        &mut day.of4.sums,
        &mut day.of4.greatests,
        &mut day.of8.held,
        &mut day.of8.sums,
        &mut day.of8.greatests,
        &mut day.of16.held,
        &mut day.of16.sums,
        &mut day.of16.greatests,
        &mut day.of32.held,
        &mut day.of32.sums,
        &mut day.of32.greatests,
        &mut day.tallies,
    );
    Ok(Some(Book {
        sizes: t.sizes,
        lines: t.line.number - 1,
    }))
}

fn counted(b: Book, day: &Day) -> Counted<'_> {
    Counted {
        lines: b.lines,
        sizes: b.sizes,
        tallies: &day.tallies,
    }
}

// The table and the maps of one book.
fn one_book(
    input: &mut impl Read,
    out: &impl Print,
    err: &impl Print,
    alloc: Global,
) -> io::Result<()> {
    let mut day = no_day();
    let Some(b) = read_book(input, err, alloc, &mut day)? else {
        return Ok(());
    };
    let z = b.sizes;
    table::of(out, Days::One(counted(b, &day)))?;
    maps::of_one(out, b"4x4", day.of4.blocks(z.of4.totals))?;
    maps::of_one(out, b"8x8", day.of8.blocks(z.of8.totals))?;
    maps::of_one(out, b"16x16", day.of16.blocks(z.of16.totals))?;
    maps::of_one(out, b"32x32", day.of32.blocks(z.of32.totals))
}

// One map of one book, as a picture.
fn picture(
    input: &mut impl Read,
    out: &impl Print,
    err: &impl Print,
    alloc: Global,
    log2: u32,
) -> io::Result<()> {
    let mut day = no_day();
    let Some(b) = read_book(input, err, alloc, &mut day)? else {
        return Ok(());
    };
    let z = b.sizes;
    match log2 {
        2 => maps::picture(out, day.of4.blocks(z.of4.totals)),
        3 => maps::picture(out, day.of8.blocks(z.of8.totals)),
        4 => maps::picture(out, day.of16.blocks(z.of16.totals)),
        _ => maps::picture(out, day.of32.blocks(z.of32.totals)),
    }
}

// Two books beside each other.
fn two_books(
    yesterday: &mut impl Read,
    today: &mut impl Read,
    out: &impl Print,
    err: &impl Print,
    alloc: Global,
) -> io::Result<()> {
    let mut first_day = no_day();
    let mut second_day = no_day();
    let Some(y) = read_book(yesterday, err, alloc, &mut first_day)? else {
        return Ok(());
    };
    let Some(t) = read_book(today, err, alloc, &mut second_day)? else {
        return Ok(());
    };
    let a = y.sizes;
    let b = t.sizes;
    table::heading(out)?;
    table::of(
        out,
        Days::Two(counted(y, &first_day), counted(t, &second_day)),
    )?;
    maps::of_both(
        out,
        b"4x4",
        first_day.of4.blocks(a.of4.totals),
        second_day.of4.blocks(b.of4.totals),
    )?;
    maps::of_both(
        out,
        b"8x8",
        first_day.of8.blocks(a.of8.totals),
        second_day.of8.blocks(b.of8.totals),
    )?;
    maps::of_both(
        out,
        b"16x16",
        first_day.of16.blocks(a.of16.totals),
        second_day.of16.blocks(b.of16.totals),
    )?;
    maps::of_both(
        out,
        b"32x32",
        first_day.of32.blocks(a.of32.totals),
        second_day.of32.blocks(b.of32.totals),
    )
}

// The book that an argument names, - being standard input; or none, and a word to `err`. std opens no name that is not UTF-8.
fn open<R: Files + Env>(
    rt: &R,
    input: Stdin,
    err: &impl Print,
    alloc: Global,
    i: usize,
) -> io::Result<Option<Source<R::File>>> {
    let mut name = [0u8; 4096];
    let n = argument(rt, i, &mut name);
    if same(part(&name, 0, n), b"-") {
        return Ok(Some(Source::Input(input)));
    }
    match file(rt, part(&name, 0, n)) {
        Ok(book) => Ok(Some(Source::File(book))),
        Err(e) => {
            fail(err, alloc, part(&name, 0, n), &e)?;
            Ok(None)
        }
    }
}

fn file<R: Files>(rt: &R, name: &[u8]) -> io::Result<R::File> {
    match str::from_utf8(name) {
        Ok(path) => File::open(rt, path),
        Err(_) => Err(io::Error::from(ErrorKind::InvalidFilename)),
    }
}

// Puts an argument at the start of a buffer; answers how long it is, and 0 where it is missing or longer than the buffer.
fn argument(rt: &impl Env, i: usize, word: &mut [u8]) -> usize {
    rt.arg(i, word).unwrap_or(0)
}

// How many arguments there are, the program's name among them; of more than 5 no more are counted.
fn arguments(rt: &impl Env) -> usize {
    for i in 0..5 {
        if let Err(FillError::NotPresent) = rt.arg(i, &mut []) {
            return i;
        }
    }
    5
}

fn usage(err: &impl Print) -> io::Result<()> {
    write::text(
        err,
        b"morning [BOOK] | morning YESTERDAY TODAY | morning --pgm SIZE [BOOK], of size 4, 8, 16 or 32\n",
    )
}

// Whether an argument is --pgm.
fn is_pgm(rt: &impl Env, i: usize) -> bool {
    let mut word = [0u8; 4096];
    let n = argument(rt, i, &mut word);
    same(part(&word, 0, n), b"--pgm")
}

// The log2 of the size that an argument names.
fn size_named(rt: &impl Env, i: usize) -> Option<u32> {
    let mut word = [0u8; 4096];
    let n = argument(rt, i, &mut word);
    let size = part(&word, 0, n);
    if same(size, b"4") {
        return Some(2);
    }
    if same(size, b"8") {
        return Some(3);
    }
    if same(size, b"16") {
        return Some(4);
    }
    if same(size, b"32") {
        return Some(5);
    }
    None
}

// --pgm SIZE, and a book or standard input.
fn pgm<R: Files + Env>(
    rt: &R,
    input: Stdin,
    out: &impl Print,
    err: &impl Print,
    alloc: Global,
    count: usize,
) -> io::Result<()> {
    let Some(log2) = size_named(rt, 2) else {
        return usage(err);
    };
    if count == 3 {
        let mut book = input;
        return picture(&mut book, out, err, alloc, log2);
    }
    if count != 4 {
        return usage(err);
    }
    let Some(source) = open(rt, input, err, alloc, 3)? else {
        return Ok(());
    };
    let mut book = source;
    picture(&mut book, out, err, alloc, log2)
}

fn from_one<R: Files + Env>(
    rt: &R,
    input: Stdin,
    out: &impl Print,
    err: &impl Print,
    alloc: Global,
) -> io::Result<()> {
    let Some(source) = open(rt, input, err, alloc, 1)? else {
        return Ok(());
    };
    let mut book = source;
    one_book(&mut book, out, err, alloc)
}

fn from_two<R: Files + Env>(
    rt: &R,
    input: Stdin,
    out: &impl Print,
    err: &impl Print,
    alloc: Global,
) -> io::Result<()> {
    let Some(first_day) = open(rt, input, err, alloc, 1)? else {
        return Ok(());
    };
    let Some(second_day) = open(rt, input, err, alloc, 2)? else {
        return Ok(());
    };
    let mut yesterday = first_day;
    let mut today = second_day;
    two_books(&mut yesterday, &mut today, out, err, alloc)
}

fn main(rt: HostRuntime) -> io::Result<()> {
    let out = rt.stdout();
    let err = rt.stderr();
    let input = rt.stdin();
    let count = arguments(&rt);
    if count < 2 {
        let mut book = input;
        return one_book(&mut book, &out, &err, rt.alloc());
    }
    if is_pgm(&rt, 1) {
        return pgm(&rt, input, &out, &err, rt.alloc(), count);
    }
    if count == 2 {
        return from_one(&rt, input, &out, &err, rt.alloc());
    }
    if count == 3 {
        return from_two(&rt, input, &out, &err, rt.alloc());
    }
    usage(&err)
}
