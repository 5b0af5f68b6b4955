// Two payloads held against each other.
ghost use Rattle.std.specs.Prelude.{◌≡◌, ◌*◌, ◌≤◌, length};
ghost use Rattle.bins.specs.Bits.{bits};
ghost use Rattle.differs.specs.Differ.{first_difference};

use bins::places::BitPlace;
use bits::fetch::draw;

fn bit(bytes: &[u8], at: usize) -> u32
    requires { (at ≤ 8 * length bytes.now) × (length bytes.now ≤ 16777216) }
    ensures { result ≡ bits bytes.now at 1 }
{
    let drawn = draw(bytes, BitPlace(at), 1);
    drawn.bits
}

// The first bit at which two payloads differ; where they agree as far as both go, the end of the shorter.
pub fn first_difference(a: &[u8], b: &[u8]) -> usize
    requires { (length a.now ≤ 16777216) × (length b.now ≤ 16777216) }
    ensures { result ≡ first_difference a.now b.now }
{
    let n = 8 * a.len().min(b.len());
    for i in 0..n {
        if bit(a, i) != bit(b, i) {
            return i;
        }
    }
    n
}
