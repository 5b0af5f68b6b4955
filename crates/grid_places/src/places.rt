// Places of a block as a grid has them: how wide it is, and where a row and a column stand.
ghost use Rattle.std.specs.Prelude.{◌+◌, ◌*◌, ◌≤◌, ◌<◌};

pub fn side(log2: u32) -> usize
    ensures { result ≤ 32 }
{
    match log2 {
        2 => 4,
        3 => 8,
        4 => 16,
        _ => 32,
    }
}

// The place of a row and a column.
pub fn place(log2: u32, row: usize, column: usize) -> usize
    requires { (row < 32) × (column < 32) }
    ensures { result ≤ 1023 }
{
    match log2 {
        2 => row * 4 + column,
        3 => row * 8 + column,
        4 => row * 16 + column,
        _ => row * 32 + column,
    }
}

// The place of a row's first level.
pub fn first_of(log2: u32, row: usize) -> usize
    ensures { result ≤ 992 }
{
    if 31 < row {
        return 0;
    }
    match log2 {
        2 => 4 * row,
        3 => 8 * row,
        4 => 16 * row,
        _ => 32 * row,
    }
}
