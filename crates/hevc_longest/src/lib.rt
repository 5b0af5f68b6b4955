// The longest bin list of a block, by its size: a room of so many bytes is never too small.
#![tactic(auto)]

ghost use Rattle.std.specs.Prelude.{◌≡◌, ◌≤◌};
ghost use Rattle.hevc_longest.specs.Longest.{longest};

// In bytes. That no block has a longer list is `longest_enough` (proofs/LongestLaws.antt).
pub fn longest_list(log2: u32) -> usize
    requires { (2 ≤ log2) × (log2 ≤ 5) }
    ensures { result ≡ longest log2 }
{
    match log2 {
        2 => 1124,
        3 => 4464,
        4 => 17796,
        _ => 71088,
    }
}
