// Two frames, two lines of the book (README has their form): can the block depend on what differs between them? Frames are read from standard input, two and two;
// the first of each pair is the one that is read. hevc_differ::entries::judge decides, and where it says never, it is proved that the second frame's payload gives
// the same (hevc_differ, never-knows). A line for each pair goes to standard output.
#![tactic(auto)]

mod words; // words.rt: the judgement in words

ghost use Rattle.std.specs.Prelude.{◌≤◌, length};

use bins::state::Engine;
use bins::tags::CONTEXTS;
use book_lines::form::refusal;
use cabac_engine::engine::start;
use cabac_init::contexts::init_contexts;
use frame::fields::{flags_refusal, params};
use frame_judge::judge;
use hevc_differ::entries::judge as judge_payloads;
use std::io;
use std::io::Read;
use text::lines;
use text::lines::{Line, Window, part};
use text_octets::octets::hex_bytes;

// A line of the book, and one byte more.
const LINE: usize = 8470;

// The bytes of a frame at most, and those before its payload.
const MOST: usize = 4234;

const FRONT: usize = 138;

fn byte(s: &[u8], i: usize) -> u8 {
    s.get(i).copied().unwrap_or(0)
}

// The frames differ in a byte before the payloads that is none of the two of the length.
fn differ_at(a: &[u8], b: &[u8], i: usize) -> bool {
    if byte(a, i) == byte(b, i) {
        return false;
    }
    if i < 6 {
        return true;
    }
    7 < i
}

// The first such byte.
fn first_other(a: &[u8], b: &[u8]) -> Option<usize> {
    (0..FRONT).find(|i| differ_at(a, b, *i))
}

// The payloads, from the state behind the first one's start and with the contexts of the front, which is the same for both.
fn payloads(out: &impl Print, a: &[u8], first: &[u8], second: &[u8], e: Engine) -> io::Result<()>
    requires { 138 ≤ length a.now }
{
    let mut contexts = [0u8; CONTEXTS];
    let mut stats = [0u8; 4];
    let block = [0i32; 1024];
    init_contexts(&mut contexts, &mut stats, part(a, 8, FRONT), byte(a, 4));
    let j = judge_payloads(first, second, e, &contexts, &stats, params(a), &block);
    words::judged(out, j, first.len(), second.len())
}

fn started(out: &impl Print, a: &[u8], b: &[u8]) -> io::Result<()>
    requires { 138 ≤ length a.now }
{
    let n = flags_refusal(a);
    if n != 0 {
        return words::unread(out, n);
    }
    let first = part(a, FRONT, a.len());
    match start(first) {
        Ok(e) => payloads(out, a, first, part(b, FRONT, b.len()), e),
        Err(m) => words::unread(out, m),
    }
}

fn pair(out: &impl Print, a: &[u8], b: &[u8]) -> io::Result<()> {
    if a.len() < FRONT {
        return Ok(());
    }
    if b.len() < FRONT {
        return Ok(());
    }
    if let Some(i) = first_other(a, b) {
        return words::front(out, i);
    }
    words::answer(out, b"the first ", judge::judge(a))?;
    words::answer(out, b", the second ", judge::judge(b))?;
    words::behind_answers(out)?;
    started(out, a, b)
}

// What goes on from line to line. The first line of a pair waits for the second: how many bytes its frame has, or none where it is no frame.
#[derive(Clone, Copy)]
struct Held {
    window: Window,
    number: u64,
    first: Option<Option<usize>>,
}

// A frame's bytes, how many; none where the line is no frame.
fn spelled(
    out: &impl Print,
    number: u64,
    line: &[u8],
    bytes: &mut [u8; MOST],
) -> io::Result<Option<usize>> {
    let n = refusal(line, true);
    if n != 0 {
        words::no_frame(out, number, n)?;
        return Ok(None);
    }
    hex_bytes(line, bytes);
    Ok(Some(line.len() / 2))
}

// The second of a pair is held against the first; a pair of which one is no frame is left out.
fn second(
    out: &impl Print,
    number: u64,
    line: &[u8],
    a: &[u8; MOST],
    first: Option<usize>,
) -> io::Result<()> {
    let mut b = [0u8; MOST];
    let second = spelled(out, number, line, &mut b)?;
    words::pair(out, number)?;
    match (first, second) {
        (Some(n), Some(m)) => pair(out, part(a, 0, n), part(&b, 0, m)),
        _ => words::left_out(out),
    }
}

// A line; what waits behind it.
fn taken(
    out: &impl Print,
    number: u64,
    line: &[u8],
    a: &mut [u8; MOST],
    first: Option<Option<usize>>,
) -> io::Result<Option<Option<usize>>> {
    let Some(before) = first else {
        let n = spelled(out, number, line, a)?;
        return Ok(Some(n));
    };
    second(out, number, line, a, before)?;
    Ok(None)
}

// One line; none at the end, which is told.
fn turn(
    input: &mut impl Read,
    out: &impl Print,
    buffer: &mut [u8; LINE],
    a: &mut [u8; MOST],
    h: Held,
) -> io::Result<Option<Held>> {
    match lines::next(input, buffer, h.window)? {
        Line::Is(from, to, window) => {
            let first = taken(out, h.number, part(buffer, from, to), a, h.first)?;
            Ok(Some(Held {
                window,
                number: h.number.saturating_add(1),
                first,
            }))
        }
        Line::Ended => {
            words::ended(out, h.number, h.first.is_some())?;
            Ok(None)
        }
        Line::TooLong => {
            words::no_frame(out, h.number, 22)?;
            words::ended(out, h.number, true)?;
            Ok(None)
        }
    }
}

// Nothing says that the input ends: the loop counts to a number that no run uses up.
fn turns(
    input: &mut impl Read,
    out: &impl Print,
    buffer: &mut [u8; LINE],
    a: &mut [u8; MOST],
) -> io::Result<()> {
    let mut h = Held {
        window: lines::nothing_read(),
        number: 1,
        first: None,
    };
    for _ in 0..u64::MAX {
        let Some(next) = turn(input, out, buffer, a, h)? else {
            return Ok(());
        };
        h = next;
    }
    Ok(())
}

fn main(rt: HostRuntime) -> io::Result<()> {
    let mut buffer = [0u8; LINE];
    let mut a = [0u8; MOST];
    turns(&mut rt.stdin(), &rt.stdout(), &mut buffer, &mut a)
}
