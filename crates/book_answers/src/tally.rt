// How often each number was given; 0 stands for ok. A count stops at the end of 64 bits.
ghost use Rattle.std.specs.Prelude.{◌≡◌, [], ◌∷◌};
ghost use Rattle.book_answers.specs.Answers.{outcome, counted, one_more};

use frame::judge::Verdict;

// The numbers from 0 to 22.
pub const NUMBERS: usize = 23;

pub fn number_of(v: Verdict) -> u32
    ensures { result ≡ outcome v }
{
    match v {
        Ok(_) => 0,
        Err(n) => n,
    }
}

fn one_more(n: u64) -> u64
    ensures { result ≡ one_more n }
{
    if 18446744073709551615 <= n {
        return n;
    }
    n + 1
}

// One line more that was given this number.
pub fn count(tally: &mut [u64], number: u32)
    ensures { tally.new ≡ counted tally.old (number ∷ []) }
{
    let i = number as usize;
    if tally.len() <= i {
        return;
    }
    tally[i] = one_more(tally[i]);
}
