// A spoiled book, piece after piece, and its end.
ghost use Rattle.std.specs.Prelude.{◌≡◌, ℕ, ◌+◌, ◌*◌, ◌≤◌, ◌<◌, List, [], length, take};
ghost use Rattle.book_lines.specs.Lines.{Line, line_of};
ghost use Rattle.book_lines.specs.Steps.{reading, step_state, step_out, fed_state, fed_out, end_out};
ghost use Rattle.spoiled.specs.Salvage.{all};
ghost use Rattle.spoiled.specs.Gave.{Gave};

use book_lines::pending::{Pending, push};
use spoiled::fate::lower_and_look;
use spoiled::tally::Tally;
use spoiled_words::tally::count_line;
use spoiled_words::words::{put_report, put_salvaged};

// The line that is being read, the tally so far, and how much of the book's and of the report's room is written.
#[derive(Clone, Copy)]
pub struct Salvaging {
    pub line: Pending,
    pub tally: Tally,
    pub book: usize,
    pub report: usize,
}

// The line that was read is put into the book if it keeps the form, told in the report and counted.
fn end_line(
    line: &mut [u8],
    s: Salvaging,
    finished: bool,
    book: &mut [u8],
    report: &mut [u8],
) -> Salvaging
    requires { (s.line.held ≤ length line.old) × (s.book + s.line.held < length book.old) × (s.report + 64 ≤ length report.old) × (s.line.number < 18446744073709551615) × (all s.tally < s.line.number) }
    ensures { Gave (λ (f : ℕ → Line → List ℕ). f s.line.number (line_of (take s.line.held line.old) finished)) (take s.book book.old) (take s.report report.old) s.tally (take result.book book.new) (take result.report report.new) result.tally × (result.line.number ≡ s.line.number + 1) × (result.line.held ≡ 0) × (result.book ≤ s.book + s.line.held + 1) × (result.report ≤ s.report + 64) × (all result.tally < result.line.number) }
{
    let number = s.line.number;
    let held = s.line.held;
    let fate = lower_and_look(line, held, finished);
    let b = put_salvaged(&line[..held], fate.number, book, s.book);
    let p = put_report(number, fate, report, s.report);
    let tally = count_line(s.tally, fate);
    let next = Pending {
        number: number + 1,
        held: 0,
    };
    Salvaging {
        line: next,
        tally,
        book: b,
        report: p,
    }
}

// One byte.
fn step(b: u8, line: &mut [u8], s: Salvaging, book: &mut [u8], report: &mut [u8]) -> Salvaging
    requires { (length line.old ≡ 8469) × (s.line.held ≤ 8469) × (s.book + s.line.held < length book.old) × (s.report + 64 ≤ length report.old) × (s.line.number < 18446744073709551615) × (all s.tally < s.line.number) }
    ensures { (reading line.new result.line ≡ step_state (reading line.old s.line) b) × Gave (λ (f : ℕ → Line → List ℕ). step_out f (reading line.old s.line) b) (take s.book book.old) (take s.report report.old) s.tally (take result.book book.new) (take result.report report.new) result.tally × (result.line.held ≤ 8469) × (result.book + result.line.held ≤ s.book + s.line.held + 1) × (result.report ≤ s.report + 64) × (result.line.number ≤ s.line.number + 1) × (all result.tally < result.line.number) }
{
    if b != b'\n' {
        let number = s.line.number;
        let held = push(line, s.line.held, b);
        let more = Pending { number, held };
        let tally = s.tally;
        return Salvaging {
            line: more,
            tally,
            book: s.book,
            report: s.report,
        };
    }
    end_line(line, s, true, book, report)
}

// A piece of the spoiled book, any that the rooms are large enough for: what it gives stands at the front of both.
pub fn feed(
    piece: &[u8],
    line: &mut [u8],
    p: Pending,
    t: Tally,
    book: &mut [u8],
    report: &mut [u8],
) -> Salvaging
    requires { (length line.old ≡ 8469) × (p.held ≤ 8469) × (p.held + length piece.now < length book.old) × (64 * length piece.now ≤ length report.old) × (p.number + length piece.now < 18446744073709551616) × (all t < p.number) }
    ensures { (reading line.new result.line ≡ fed_state (reading line.old p) piece.now) × Gave (λ (f : ℕ → Line → List ℕ). fed_out f (reading line.old p) piece.now) [] [] t (take result.book book.new) (take result.report report.new) result.tally × (result.line.held ≤ 8469) × (result.book ≤ p.held + length piece.now) × (result.report ≤ 64 * length piece.now) × (result.line.number ≤ p.number + length piece.now) × (all result.tally < result.line.number) }
{
    let mut s = Salvaging {
        line: p,
        tally: t,
        book: 0,
        report: 0,
    };
    for &b in piece {
        s = step(b, line, s, book, report);
    }
    s
}

// The end of the spoiled book: bytes behind its last line feed are an unfinished line, which is dropped.
pub fn finish(
    line: &mut [u8],
    p: Pending,
    t: Tally,
    book: &mut [u8],
    report: &mut [u8],
) -> Salvaging
    requires { (p.held ≤ length line.old) × (p.held < length book.old) × (64 ≤ length report.old) × (p.number < 18446744073709551615) × (all t < p.number) }
    ensures { Gave (λ (f : ℕ → Line → List ℕ). end_out f (reading line.old p)) [] [] t (take result.book book.new) (take result.report report.new) result.tally × (result.book ≤ p.held + 1) × (result.report ≤ 64) × (all result.tally < 18446744073709551616) }
{
    let s = Salvaging {
        line: p,
        tally: t,
        book: 0,
        report: 0,
    };
    let held = p.held;
    if held == 0 {
        return s;
    }
    end_line(line, s, false, book, report)
}
