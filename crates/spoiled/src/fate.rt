// What becomes of a line: its upper-case digits are turned to lower case where it stands, then its form is looked at.
ghost use Rattle.std.specs.Prelude.{◌≡◌, ◌≤◌, cond, ◌++◌, length, take, drop};
ghost use Rattle.book_lines.specs.Lines.{line_of};
ghost use Rattle.spoiled.specs.Salvage.{is_upper, lower, lowered, uppers, fate};

use book_lines::form::refusal;

fn is_upper(b: u8) -> bool
    ensures { result ≡ is_upper b }
{
    match b {
        65..=70 => true,
        _ => false,
    }
}

fn lower_digit(b: u8) -> u8
    ensures { result ≡ lower b }
{
    if is_upper(b) {
        return b + 32;
    }
    b
}

fn turned(b: u8) -> usize
    ensures { (result ≡ cond (is_upper b) 1 0) × (result ≤ 1) }
{
    if is_upper(b) {
        return 1;
    }
    0
}

// Turns upper-case digits of the first n bytes to lower case; answers how many they were.
fn lower_line(line: &mut [u8], n: usize) -> usize
    requires { n ≤ length line.old }
    ensures { (line.new ≡ lowered (take n line.old) ++ drop n line.old) × (result ≡ uppers (take n line.old)) }
{
    let mut k: usize = 0;
    for i in 0..n {
        let b = line[i];
        k += turned(b);
        line[i] = lower_digit(b);
    }
    k
}

// 0 where the line is copied, else the number by which it is dropped; and how many digits were turned.
#[derive(Clone, Copy)]
pub struct Fate {
    pub number: u32,
    pub turned: usize,
}

pub fn lower_and_look(line: &mut [u8], held: usize, finished: bool) -> Fate
    requires { held ≤ length line.old }
    ensures { (result.number ≡ fate (line_of (take held line.old) finished)) × (result.turned ≡ uppers (take held line.old)) × (take held line.new ≡ lowered (take held line.old)) }
{
    let turned = lower_line(line, held);
    let number = refusal(&line[..held], finished);
    Fate { number, turned }
}
