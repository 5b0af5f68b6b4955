// What is kept between the pieces of a book.
use book_lines::pending::Pending;

// The line that is being read, and how much of the room is written.
#[derive(Clone, Copy)]
pub struct Answering {
    pub line: Pending,
    pub out: usize,
}
