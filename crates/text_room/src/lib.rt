// Text into a lent room, piece behind piece. What stands before a piece stays.
#![tactic(auto)]

ghost use Rattle.std.specs.Prelude.{◌≡◌, ◌+◌, ◌≤◌, ◌++◌, length, take};
ghost use Rattle.text_room.specs.Decimal.{decimal};

use octet_scan::copy;

// Puts s behind the first `at` bytes; answers the place behind it.
pub fn put(s: &[u8], out: &mut [u8], at: usize) -> usize
    requires { at + length s.now ≤ length out.old }
    ensures { (take result out.new ≡ take at out.old ++ s.now) × (result ≡ at + length s.now) }
{
    copy(s, &mut out[at..]);
    at + s.len()
}

// The same for a number in decimal.
pub fn put_decimal(n: u64, out: &mut [u8], at: usize) -> usize
    requires { at + 20 ≤ length out.old }
    ensures { (take result out.new ≡ take at out.old ++ decimal n) × (result ≤ at + 20) }
{
    let mut text = [0u8; 20];
    let k = io::decimal(n, &mut text);
    put(&text[..k], out, at)
}

// A number with a word behind it.
pub fn put_count(n: u64, word: &[u8], out: &mut [u8], at: usize) -> usize
    requires { at + 20 + length word.now ≤ length out.old }
    ensures { (take result out.new ≡ take at out.old ++ (decimal n ++ word.now)) × (result ≤ at + 20 + length word.now) }
{
    let a = put_decimal(n, out, at);
    put(word, out, a)
}
