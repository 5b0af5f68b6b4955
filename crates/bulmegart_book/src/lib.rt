// The book of test pieces as functions that C and Rust call: pieces of a book in, answers out. They take anything that they can be handed;
// include/bulmegart.h says the same for C.
#![tactic(auto)]

ghost use Rattle.std.specs.Prelude.{◌≡◌, length};
ghost use Rattle.bulmegart_book.specs.Exported.{handed_refusal, Fed, Ended};

use book_answering::answering::{feed, finish};
use book_answers::answering::Answering;
use book_lines::pending::Pending;

// The line that is being read, as a call left it: its number, from 1, and how many of its bytes the lent buffer holds; and how many bytes of the
// room the call wrote.
#[repr(C)]
#[derive(Clone, Copy)]
pub struct BookAnswer {
    pub number: u32,
    pub line: u64,
    pub held: usize,
    pub written: usize,
}

// 4: a buffer that is not 8,469 bytes long, or a line that no call leaves; 12: a room with less than 70 bytes for each line that could end.
fn handed_refusal(buffer: usize, line: u64, held: usize, lines: usize, room: usize) -> u32
    ensures { result ≡ handed_refusal buffer line held lines room }
{
    if buffer != 8469 {
        return 4;
    }
    if 8469 < held {
        return 4;
    }
    if 18446744073709551615 - (lines as u64) < line {
        return 4;
    }
    if room / 70 < lines {
        return 12;
    }
    0
}

impl From<Answering> for BookAnswer {
    ghost from_gives = { λ a r. (r.number ≡ 0) × (r.line ≡ a.line.number) × (r.held ≡ a.line.held) × (r.written ≡ a.out) };

    fn from(a: Answering) -> BookAnswer {
        BookAnswer {
            number: 0,
            line: a.line.number,
            held: a.line.held,
            written: a.out,
        }
    }
}

// A piece of a book, of any length: the answers to the lines that end in it.
#[unsafe(no_mangle)]
pub extern "C" fn bulmegart_book_feed(
    piece: &[u8],
    buffer: &mut [u8],
    line: u64,
    held: usize,
    tally: &mut [u64],
    room: &mut [u8],
) -> BookAnswer
    ensures { Fed piece.now buffer.old line held tally.old room.old result buffer.new tally.new room.new }
{
    let number = handed_refusal(buffer.len(), line, held, piece.len(), room.len());
    if number != 0 {
        return BookAnswer {
            number,
            line,
            held,
            written: 0,
        };
    }
    let p = Pending { number: line, held };
    feed(piece, buffer, p, tally, room).into()
}

// The end of a book: the answer to what stands behind its last line feed.
#[unsafe(no_mangle)]
pub extern "C" fn bulmegart_book_finish(
    buffer: &[u8],
    line: u64,
    held: usize,
    tally: &mut [u64],
    room: &mut [u8],
) -> BookAnswer
    ensures { Ended buffer.now line held tally.old room.old result tally.new room.new }
{
    let number = handed_refusal(buffer.len(), line, held, 1, room.len());
    if number != 0 {
        return BookAnswer {
            number,
            line,
            held,
            written: 0,
        };
    }
    let p = Pending { number: line, held };
    finish(buffer, p, tally, room).into()
}
