// A line as the book and the report have it, put behind what stands in a lent room.
ghost use Rattle.std.specs.Prelude.{◌≡◌, ◌+◌, ◌≤◌, ◌<◌, [], ◌∷◌, ◌++◌, length, take};
ghost use Rattle.text_room.specs.Decimal.{decimal};
ghost use Rattle.spoiled.specs.Salvage.{kept_of, salvaged_as, fate_words};

use spoiled::fate::Fate;
use text_room::{put, put_decimal};

// A part of a line that is copied; nothing of one that is dropped.
fn put_kept(part: &[u8], number: u32, book: &mut [u8], at: usize) -> usize
    requires { at + length part.now ≤ length book.old }
    ensures { (take result book.new ≡ take at book.old ++ kept_of number part.now) × (result ≤ at + length part.now) }
{
    if number != 0 {
        return at;
    }
    put(part, book, at)
}

// The line with its line feed, as the book that comes out has it.
pub fn put_salvaged(line: &[u8], number: u32, book: &mut [u8], at: usize) -> usize
    requires { at + length line.now < length book.old }
    ensures { (take result book.new ≡ take at book.old ++ salvaged_as number line.now) × (result ≤ at + length line.now + 1) }
{
    let a = put_kept(line, number, book, at);
    put_kept(b"\n", number, book, a)
}

fn put_fate(number: u32, turned: usize, report: &mut [u8], at: usize) -> usize
    requires { at + 40 ≤ length report.old }
    ensures { (take result report.new ≡ take at report.old ++ fate_words number turned) × (result ≤ at + 29) }
{
    if number != 0 {
        let a = put(b" dropped ", report, at);
        return put_decimal(number as u64, report, a);
    }
    if turned == 0 {
        return put(b" kept", report, at);
    }
    let c = put(b" lowered ", report, at);
    put_decimal(turned as u64, report, c)
}

// The report's line of line n.
pub fn put_report(n: u64, f: Fate, report: &mut [u8], at: usize) -> usize
    requires { at + 64 ≤ length report.old }
    ensures { (take result report.new ≡ take at report.old ++ (decimal n ++ (fate_words f.number f.turned ++ (10 ∷ [])))) × (result ≤ at + 64) }
{
    let a = put_decimal(n, report, at);
    let b = put_fate(f.number, f.turned, report, a);
    put(b"\n", report, b)
}
