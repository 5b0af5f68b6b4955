// The line that is being read: its first 8,469 bytes at the front of a lent buffer. One more than a frame's line may have shows that it is too long.
ghost use Rattle.std.specs.Prelude.{◌≡◌, ◌+◌, ◌≤◌, length, take};
ghost use Rattle.book_lines.specs.Steps.{grown, first_line};

// The most bytes that are held.
pub const MOST_HELD: usize = 8469;

// The line's number, from 1, and how many of its bytes are held.
#[derive(Clone, Copy)]
pub struct Pending {
    pub number: u64,
    pub held: usize,
}

// The first line, nothing of it read.
pub fn first() -> Pending
    ensures { result ≡ first_line }
{
    Pending { number: 1, held: 0 }
}

// One byte more of the line; answers how many are held.
pub fn push(line: &mut [u8], held: usize, b: u8) -> usize
    requires { (length line.old ≡ 8469) × (held ≤ 8469) }
    ensures { (take result line.new ≡ grown (take held line.old) b) × (result ≤ 8469) × (result ≤ held + 1) }
{
    if MOST_HELD <= held {
        return held;
    }
    line[held] = b;
    held + 1
}
