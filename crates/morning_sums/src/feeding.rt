// A book, piece after piece, and its end. The figures' arrays are apart as in `morning_add::adding::add_event`.
ghost use Rattle.std.specs.Prelude.{◌≡◌, ◌+◌, ◌≤◌, ◌<◌, length, take};
ghost use Rattle.book_lines.specs.Lines.{line_of};
ghost use Rattle.book_lines.specs.Steps.{reading, step_state, step_out, fed_state, fed_out, end_out};
ghost use Rattle.morning_add.specs.Sums.{event_line, added};
ghost use Rattle.morning_add.specs.Agree.{four_of};

use book_lines::pending::{Pending, push};
use morning_add::adding::{Sizes, add_event};
use morning_lines::event::read_line;

// The line that is being read, and the totals of each size.
#[derive(Clone, Copy)]
pub struct Feeding {
    pub line: Pending,
    pub sizes: Sizes,
}

// The line that was read is added.
fn end_line(
    line: &[u8],
    s: Feeding,
    finished: bool,
    blocks4: &mut [u32; 1024],
    sums4: &mut [u64; 1024],
    greatests4: &mut [u32; 1024],
    blocks8: &mut [u32; 1024],
    sums8: &mut [u64; 1024],
    greatests8: &mut [u32; 1024],
    blocks16: &mut [u32; 1024],
    sums16: &mut [u64; 1024],
    greatests16: &mut [u32; 1024],
    blocks32: &mut [u32; 1024],
    sums32: &mut [u64; 1024],
    greatests32: &mut [u32; 1024],
    tallies: &mut [u32; 24],
) -> Feeding
    requires { (s.line.held ≤ length line.now) × (s.line.number < 18446744073709551615) }
    ensures { (four_of result.sizes blocks4.new sums4.new greatests4.new blocks8.new sums8.new greatests8.new blocks16.new sums16.new greatests16.new blocks32.new sums32.new greatests32.new tallies.new ≡ added (four_of s.sizes blocks4.old sums4.old greatests4.old blocks8.old sums8.old greatests8.old blocks16.old sums16.old greatests16.old blocks32.old sums32.old greatests32.old tallies.old) (event_line s.line.number (line_of (take s.line.held line.now) finished))) × (result.line.number ≡ s.line.number + 1) × (result.line.held ≡ 0) }
{
    let number = s.line.number;
    let held = s.line.held;
    let mut levels = [0i32; 1024];
    let e = read_line(&line[..held], finished, &mut levels);
    let z = s.sizes;
    let sizes = add_event(
        e,
        &levels,
        z,
        blocks4,
        sums4,
        greatests4,
        blocks8,
        sums8,
        greatests8,
        blocks16,
        sums16,
        greatests16,
        blocks32,
        sums32,
        greatests32,
        tallies,
    );
    let next = Pending {
        number: number + 1,
        held: 0,
    };
    Feeding { line: next, sizes }
}

// One byte.
fn step(
    b: u8,
    line: &mut [u8],
    s: Feeding,
    blocks4: &mut [u32; 1024],
    sums4: &mut [u64; 1024],
    greatests4: &mut [u32; 1024],
    blocks8: &mut [u32; 1024],
    sums8: &mut [u64; 1024],
    greatests8: &mut [u32; 1024],
    blocks16: &mut [u32; 1024],
    sums16: &mut [u64; 1024],
    greatests16: &mut [u32; 1024],
    blocks32: &mut [u32; 1024],
    sums32: &mut [u64; 1024],
    greatests32: &mut [u32; 1024],
    tallies: &mut [u32; 24],
) -> Feeding
    requires { (length line.old ≡ 8469) × (s.line.held ≤ 8469) × (s.line.number < 18446744073709551615) }
    ensures { (reading line.new result.line ≡ step_state (reading line.old s.line) b) × (four_of result.sizes blocks4.new sums4.new greatests4.new blocks8.new sums8.new greatests8.new blocks16.new sums16.new greatests16.new blocks32.new sums32.new greatests32.new tallies.new ≡ added (four_of s.sizes blocks4.old sums4.old greatests4.old blocks8.old sums8.old greatests8.old blocks16.old sums16.old greatests16.old blocks32.old sums32.old greatests32.old tallies.old) (step_out event_line (reading line.old s.line) b)) × (result.line.held ≤ 8469) × (s.line.number ≤ result.line.number) × (result.line.number ≤ s.line.number + 1) }
{
    if b != b'\n' {
        let number = s.line.number;
        let held = push(line, s.line.held, b);
        let more = Pending { number, held };
        let sizes = s.sizes;
        return Feeding { line: more, sizes };
    }
    end_line(
        line,
        s,
        true,
        blocks4,
        sums4,
        greatests4,
        blocks8,
        sums8,
        greatests8,
        blocks16,
        sums16,
        greatests16,
        blocks32,
        sums32,
        greatests32,
        tallies,
    )
}

// A piece of the book.
pub fn feed(
    piece: &[u8],
    line: &mut [u8],
    s: Feeding,
    blocks4: &mut [u32; 1024],
    sums4: &mut [u64; 1024],
    greatests4: &mut [u32; 1024],
    blocks8: &mut [u32; 1024],
    sums8: &mut [u64; 1024],
    greatests8: &mut [u32; 1024],
    blocks16: &mut [u32; 1024],
    sums16: &mut [u64; 1024],
    greatests16: &mut [u32; 1024],
    blocks32: &mut [u32; 1024],
    sums32: &mut [u64; 1024],
    greatests32: &mut [u32; 1024],
    tallies: &mut [u32; 24],
) -> Feeding
    requires { (length line.old ≡ 8469) × (s.line.held ≤ 8469) × (s.line.number + length piece.now < 18446744073709551616) }
    ensures { (reading line.new result.line ≡ fed_state (reading line.old s.line) piece.now) × (four_of result.sizes blocks4.new sums4.new greatests4.new blocks8.new sums8.new greatests8.new blocks16.new sums16.new greatests16.new blocks32.new sums32.new greatests32.new tallies.new ≡ added (four_of s.sizes blocks4.old sums4.old greatests4.old blocks8.old sums8.old greatests8.old blocks16.old sums16.old greatests16.old blocks32.old sums32.old greatests32.old tallies.old) (fed_out event_line (reading line.old s.line) piece.now)) × (result.line.held ≤ 8469) × (s.line.number ≤ result.line.number) × (result.line.number ≤ s.line.number + length piece.now) }
{
    let mut t = s;
    for &b in piece {
        t = step(
            b,
            line,
            t,
            blocks4,
            sums4,
            greatests4,
            blocks8,
            sums8,
            greatests8,
            blocks16,
            sums16,
            greatests16,
            blocks32,
            sums32,
            greatests32,
            tallies,
        );
    }
    t
}

// The end of the book: bytes behind its last line feed are an unfinished line.
pub fn finish(
    line: &[u8],
    s: Feeding,
    blocks4: &mut [u32; 1024],
    sums4: &mut [u64; 1024],
    greatests4: &mut [u32; 1024],
    blocks8: &mut [u32; 1024],
    sums8: &mut [u64; 1024],
    greatests8: &mut [u32; 1024],
    blocks16: &mut [u32; 1024],
    sums16: &mut [u64; 1024],
    greatests16: &mut [u32; 1024],
    blocks32: &mut [u32; 1024],
    sums32: &mut [u64; 1024],
    greatests32: &mut [u32; 1024],
    tallies: &mut [u32; 24],
) -> Feeding
    requires { (s.line.held ≤ length line.now) × (s.line.number < 18446744073709551615) }
    ensures { (four_of result.sizes blocks4.new sums4.new greatests4.new blocks8.new sums8.new greatests8.new blocks16.new sums16.new greatests16.new blocks32.new sums32.new greatests32.new tallies.new ≡ added (four_of s.sizes blocks4.old sums4.old greatests4.old blocks8.old sums8.old greatests8.old blocks16.old sums16.old greatests16.old blocks32.old sums32.old greatests32.old tallies.old) (end_out event_line (reading line.now s.line))) × (s.line.number ≤ result.line.number) }
{
    let held = s.line.held;
    if held == 0 {
        return s;
    }
    end_line(
        line,
        s,
        false,
        blocks4,
        sums4,
        greatests4,
        blocks8,
        sums8,
        greatests8,
        blocks16,
        sums16,
        greatests16,
        blocks32,
        sums32,
        greatests32,
        tallies,
    )
}
