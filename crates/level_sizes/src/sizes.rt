// A level's sign and magnitude, and the greatest of several.
ghost use Rattle.std.specs.Prelude.{◌≡◌, max, nat_abs};
ghost use Rattle.trees.specs.Levels.{negative, greatest_of};

// The distance from 0; it fits even of the least i32.
pub fn magnitude(v: i32) -> u32
    ensures { result ≡ nat_abs v }
{
    v.unsigned_abs()
}

pub fn is_negative(v: i32) -> bool
    ensures { result ≡ negative v }
{
    v < 0
}

pub fn larger(a: u32, b: u32) -> u32
    ensures { result ≡ max a b }
{
    a.max(b)
}

// The greatest magnitude of the levels.
pub fn greatest(block: &[i32]) -> u32
    ensures { result ≡ greatest_of block.now }
{
    let mut most: u32 = 0;
    for level in block {
        most = larger(most, magnitude(*level));
    }
    most
}
