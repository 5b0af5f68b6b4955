// The answer to a line as words.
ghost use Rattle.std.specs.Prelude.{◌≡◌, ◌+◌, ◌≤◌, [], ◌∷◌, ◌++◌, length, take};
ghost use Rattle.text_room.specs.Decimal.{decimal};
ghost use Rattle.book_answers.specs.Answers.{ok_words, no_words, verdict_words};

use frame::judge::Verdict;
use text_room::{put, put_decimal};

fn put_ok(greatest: u32, past: u32, out: &mut [u8], at: usize) -> usize
    requires { at + 45 ≤ length out.old }
    ensures { (take result out.new ≡ take at out.old ++ ok_words greatest past) × (result ≤ at + 45) }
{
    let a = put(b" ok ", out, at);
    let b = put_decimal(greatest as u64, out, a);
    let c = put(b" ", out, b);
    put_decimal(past as u64, out, c)
}

fn put_no(number: u32, out: &mut [u8], at: usize) -> usize
    requires { at + 45 ≤ length out.old }
    ensures { (take result out.new ≡ take at out.old ++ no_words number) × (result ≤ at + 45) }
{
    let a = put(b" no ", out, at);
    put_decimal(number as u64, out, a)
}

fn put_verdict(v: Verdict, out: &mut [u8], at: usize) -> usize
    requires { at + 45 ≤ length out.old }
    ensures { (take result out.new ≡ take at out.old ++ verdict_words v) × (result ≤ at + 45) }
{
    match v {
        Ok(j) => put_ok(j.greatest, j.past, out, at),
        Err(n) => put_no(n, out, at),
    }
}

// The answer to line n.
pub fn put_answer(n: u64, v: Verdict, out: &mut [u8], at: usize) -> usize
    requires { at + 70 ≤ length out.old }
    ensures { (take result out.new ≡ take at out.old ++ (decimal n ++ (verdict_words v ++ (10 ∷ [])))) × (result ≤ at + 70) }
{
    let a = put_decimal(n, out, at);
    let b = put_verdict(v, out, a);
    put(b"\n", out, b)
}
