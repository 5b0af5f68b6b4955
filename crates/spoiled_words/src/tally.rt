// How many lines were kept, lowered and dropped, and the words for it.
ghost use Rattle.std.specs.Prelude.{◌≡◌, ◌+◌, ◌≤◌, ◌<◌, [], ◌∷◌, ◌++◌, length, take};
ghost use Rattle.text_room.specs.Decimal.{decimal};
ghost use Rattle.spoiled.specs.Salvage.{kind_of, counted, no_lines, all, lines_word, tally_words};

use spoiled::fate::Fate;
use spoiled::tally::Tally;
use text_room::put_count;

pub fn none() -> Tally
    ensures { result ≡ no_lines }
{
    Tally {
        kept: 0,
        lowered: 0,
        dropped: 0,
    }
}

// One line more.
pub fn count_line(t: Tally, f: Fate) -> Tally
    requires { all t < 18446744073709551615 }
    ensures { (result ≡ counted t (kind_of f.number f.turned ∷ [])) × (all result ≡ all t + 1) }
{
    if f.number != 0 {
        return Tally {
            dropped: t.dropped + 1,
            ..t
        };
    }
    if f.turned != 0 {
        return Tally {
            lowered: t.lowered + 1,
            ..t
        };
    }
    Tally {
        kept: t.kept + 1,
        ..t
    }
}

fn put_lines(n: u64, out: &mut [u8]) -> usize
    requires { 128 ≤ length out.old }
    ensures { (take result out.new ≡ decimal n ++ lines_word n) × (result ≤ 28) }
{
    if n == 1 {
        return put_count(n, b" line: ", out, 0);
    }
    put_count(n, b" lines: ", out, 0)
}

// `N lines: N kept, N lowered, N dropped`, at the front of out.
pub fn put_tally(t: Tally, out: &mut [u8]) -> usize
    requires { (all t < 18446744073709551616) × (128 ≤ length out.old) }
    ensures { (take result out.new ≡ tally_words t) × (result ≤ 128) }
{
    let a = put_lines(t.kept + t.lowered + t.dropped, out);
    let b = put_count(t.kept, b" kept, ", out, a);
    let c = put_count(t.lowered, b" lowered, ", out, b);
    put_count(t.dropped, b" dropped\n", out, c)
}
