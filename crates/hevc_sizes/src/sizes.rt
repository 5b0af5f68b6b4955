// Sizes of an accepted block, by its log2.
ghost use Rattle.std.specs.Prelude.{◌≡◌, ◌-◌, ◌^◌, ◌≤◌};

// How many sub-blocks stand in a row.
pub fn width_of(log2: u32) -> u32
    requires { (2 ≤ log2) × (log2 ≤ 5) }
    ensures { result ≡ 2 ^ (log2 - 2) }
{
    1 << (log2 - 2)
}

// How many sub-blocks a block has.
pub fn grid(log2: u32) -> usize
    requires { (2 ≤ log2) × (log2 ≤ 5) }
    ensures { (result ≡ 4 ^ (log2 - 2)) × (result ≤ 64) }
{
    1 << (2 * (log2 - 2))
}

// n·n of an accepted size.
pub fn area_of(log2: u32) -> usize
    requires { (2 ≤ log2) × (log2 ≤ 5) }
    ensures { result ≡ 4 ^ log2 }
{
    1 << (2 * log2)
}
