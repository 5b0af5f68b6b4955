// A book, piece after piece, and its end.
ghost use Rattle.std.specs.Prelude.{◌≡◌, ℕ, ◌+◌, ◌*◌, ◌≤◌, ◌<◌, List, [], length, take};
ghost use Rattle.book_lines.specs.Lines.{line_of, Line};
ghost use Rattle.book_answers.specs.Answers.{judged};
ghost use Rattle.book_lines.specs.Steps.{reading, step_state, step_out, fed_state, fed_out, end_out};
ghost use Rattle.book_answers.specs.Gave.{Gave};

use book_answers::answer::put_answer;
use book_answers::answering::Answering;
use book_answers::tally::{count, number_of};
use book_lines::form::refusal;
use book_lines::pending::{Pending, push};
use frame::judge::Verdict;
use frame_judge::judge::judge;
use text_octets::octets::hex_bytes;

// The form's number, or the verdict on the frame that the line spells.
pub fn judge_line(line: &[u8], finished: bool) -> Verdict
    ensures { result ≡ judged (line_of line.now finished) }
{
    let n = refusal(line, finished);
    if n != 0 {
        return Err(n);
    }
    let mut bytes = [0u8; 4234];
    hex_bytes(line, &mut bytes);
    let k = line.len() / 2;
    judge(&bytes[..k])
}

// The line that was read is answered and counted.
fn end_line(
    line: &[u8],
    s: Answering,
    finished: bool,
    tally: &mut [u64],
    out: &mut [u8],
) -> Answering
    requires { (s.line.held ≤ length line.now) × (s.out + 70 ≤ length out.old) × (s.line.number < 18446744073709551615) }
    ensures { Gave (λ (f : ℕ → Line → List ℕ). f s.line.number (line_of (take s.line.held line.now) finished)) (take s.out out.old) tally.old (take result.out out.new) tally.new × (result.line.number ≡ s.line.number + 1) × (result.line.held ≡ 0) × (result.out ≤ s.out + 70) }
{
    let number = s.line.number;
    let held = s.line.held;
    let v = judge_line(&line[..held], finished);
    let n = put_answer(number, v, out, s.out);
    count(tally, number_of(v));
    let next = Pending {
        number: number + 1,
        held: 0,
    };
    Answering { line: next, out: n }
}

// One byte.
fn step(b: u8, line: &mut [u8], s: Answering, tally: &mut [u64], out: &mut [u8]) -> Answering
    requires { (length line.old ≡ 8469) × (s.line.held ≤ 8469) × (s.out + 70 ≤ length out.old) × (s.line.number < 18446744073709551615) }
    ensures { (reading line.new result.line ≡ step_state (reading line.old s.line) b) × Gave (λ (f : ℕ → Line → List ℕ). step_out f (reading line.old s.line) b) (take s.out out.old) tally.old (take result.out out.new) tally.new × (result.line.held ≤ 8469) × (result.out ≤ s.out + 70) × (s.line.number ≤ result.line.number) × (result.line.number ≤ s.line.number + 1) }
{
    if b != b'\n' {
        let number = s.line.number;
        let held = push(line, s.line.held, b);
        let more = Pending { number, held };
        return Answering {
            line: more,
            out: s.out,
        };
    }
    end_line(line, s, true, tally, out)
}

// A piece of the book, any that the room is large enough for: the answers to the lines that end in it stand at its front.
pub fn feed(
    piece: &[u8],
    line: &mut [u8],
    p: Pending,
    tally: &mut [u64],
    out: &mut [u8],
) -> Answering
    requires { (length line.old ≡ 8469) × (p.held ≤ 8469) × (70 * length piece.now ≤ length out.old) × (p.number + length piece.now < 18446744073709551616) }
    ensures { (reading line.new result.line ≡ fed_state (reading line.old p) piece.now) × Gave (λ (f : ℕ → Line → List ℕ). fed_out f (reading line.old p) piece.now) [] tally.old (take result.out out.new) tally.new × (result.line.held ≤ 8469) × (result.out ≤ 70 * length piece.now) × (p.number ≤ result.line.number) × (result.line.number ≤ p.number + length piece.now) }
{
    let mut s = Answering { line: p, out: 0 };
    for &b in piece {
        s = step(b, line, s, tally, out);
    }
    s
}

// The end of the book: bytes behind its last line feed are an unfinished line.
pub fn finish(line: &[u8], p: Pending, tally: &mut [u64], out: &mut [u8]) -> Answering
    requires { (p.held ≤ length line.now) × (70 ≤ length out.old) × (p.number < 18446744073709551615) }
    ensures { Gave (λ (f : ℕ → Line → List ℕ). end_out f (reading line.now p)) [] tally.old (take result.out out.new) tally.new × (result.out ≤ 70) × (p.number ≤ result.line.number) }
{
    let s = Answering { line: p, out: 0 };
    let held = p.held;
    if held == 0 {
        return s;
    }
    end_line(line, s, false, tally, out)
}
