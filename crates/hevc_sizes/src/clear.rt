// Zero in the first places of a lent block.
ghost use Rattle.std.specs.Prelude.{◌≡◌, ◌++◌, ◌≤◌, length, drop, replicate, pos};

// Zero in the first n places.
pub fn clear(block: &mut [i32], n: usize)
    requires { n ≤ length block.old }
    ensures { block.new ≡ replicate n (pos 0) ++ drop n block.old }
{
    block[..n].fill(0);
}
