// Octets of a text: where one stands, and one text over the front of another.
#![tactic(auto)]

ghost use Rattle.std.specs.Prelude.{◌≡◌, ◌+◌, ◌≤◌, ◌++◌, length, drop};
ghost use Rattle.octet_scan.specs.Octets.{index_of, slice};

// The first place in [from, to) at which b stands; to where there is none.
pub fn find(s: &[u8], from: usize, to: usize, b: u8) -> usize
    requires ordered { from ≤ to }
    requires within { to ≤ length s.now }
    ensures place { result ≡ from + index_of b (slice from to s.now) }
    ensures lower { from ≤ result }
    ensures upper { result ≤ to }
{
    for i in from..to {
        if s[i] == b {
            return i;
        }
    }
    to
}

// Puts s at the front of out; what stands behind it there stays.
pub fn copy(s: &[u8], out: &mut [u8])
    requires { length s.now ≤ length out.old }
    ensures { out.new ≡ s.now ++ drop (length s.now) out.old }
{
    out[..s.len()].copy_from_slice(s);
}
