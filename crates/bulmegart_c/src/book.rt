// The book of test pieces: pieces of a book in, answers out.
ghost use Rattle.bulmegart_book.specs.Exported.{Fed, Ended};

use bulmegart_book::BookAnswer;

// A piece of a book, of any length: the answers to the lines that end in it.
#[unsafe(no_mangle)]
pub extern "C" fn bulmegart_book_feed(
    piece: &[u8],
    buffer: &mut [u8],
    line: u64,
    held: usize,
    tally: &mut [u64],
    room: &mut [u8],
) -> BookAnswer
    ensures { Fed piece.now buffer.old line held tally.old room.old result buffer.new tally.new room.new }
{
    bulmegart_book::bulmegart_book_feed(piece, buffer, line, held, tally, room)
}

// The end of a book: the answer to what stands behind its last line feed.
#[unsafe(no_mangle)]
pub extern "C" fn bulmegart_book_finish(
    buffer: &[u8],
    line: u64,
    held: usize,
    tally: &mut [u64],
    room: &mut [u8],
) -> BookAnswer
    ensures { Ended buffer.now line held tally.old room.old result tally.new room.new }
{
    bulmegart_book::bulmegart_book_finish(buffer, line, held, tally, room)
}
