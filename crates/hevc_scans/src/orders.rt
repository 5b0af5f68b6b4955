// Scan orders (H.265 6.5.3 to 6.5.5) as nested constant arrays: the column and the row of each place.
ghost use Rattle.std.specs.Prelude.{◌≡◌, ◌-◌, ◌^◌, ◌≤◌, ◌<◌, length};
ghost use Rattle.hevc_residual.specs.Scan.{scan_order};
ghost use Rattle.hevc_scans.specs.Pairs.{pairs_of, Orders, Begins};

const DIAGONAL2: [[u8; 2]; 4] = [[0, 0], [0, 1], [1, 0], [1, 1]];

const ROWS2: [[u8; 2]; 4] = [[0, 0], [1, 0], [0, 1], [1, 1]];

const COLUMNS2: [[u8; 2]; 4] = [[0, 0], [0, 1], [1, 0], [1, 1]];

// Of a 2x2 grid.
fn two_wide(scan: u32) -> [[u8; 2]; 4]
    requires { scan ≤ 2 }
    ensures { result ≡ pairs_of (scan_order 2 scan) }
{
    match scan {
        0 => DIAGONAL2,
        1 => ROWS2,
        _ => COLUMNS2,
    }
}

const DIAGONAL4: [[u8; 2]; 16] = [
    [0, 0],
    [0, 1],
    [1, 0],
    [0, 2],
    [1, 1],
    [2, 0],
    [0, 3],
    [1, 2],
    [2, 1],
    [3, 0],
    [1, 3],
    [2, 2],
    [3, 1],
    [2, 3],
    [3, 2],
    [3, 3],
];

const ROWS4: [[u8; 2]; 16] = [
    [0, 0],
    [1, 0],
    [2, 0],
    [3, 0],
    [0, 1],
    [1, 1],
    [2, 1],
    [3, 1],
    [0, 2],
    [1, 2],
    [2, 2],
    [3, 2],
    [0, 3],
    [1, 3],
    [2, 3],
    [3, 3],
];

const COLUMNS4: [[u8; 2]; 16] = [
    [0, 0],
    [0, 1],
    [0, 2],
    [0, 3],
    [1, 0],
    [1, 1],
    [1, 2],
    [1, 3],
    [2, 0],
    [2, 1],
    [2, 2],
    [2, 3],
    [3, 0],
    [3, 1],
    [3, 2],
    [3, 3],
];

// Of the 16 places of a sub-block.
pub fn inner_order(scan: u32) -> [[u8; 2]; 16]
    requires { scan ≤ 2 }
    ensures { result ≡ pairs_of (scan_order 4 scan) }
{
    match scan {
        0 => DIAGONAL4,
        1 => ROWS4,
        _ => COLUMNS4,
    }
}

const DIAGONAL8: [[u8; 2]; 64] = [
    [0, 0],
    [0, 1],
    [1, 0],
    [0, 2],
    [1, 1],
    [2, 0],
    [0, 3],
    [1, 2],
    [2, 1],
    [3, 0],
    [0, 4],
    [1, 3],
    [2, 2],
    [3, 1],
    [4, 0],
    [0, 5],
    [1, 4],
    [2, 3],
    [3, 2],
    [4, 1],
    [5, 0],
    [0, 6],
    [1, 5],
    [2, 4],
    [3, 3],
    [4, 2],
    [5, 1],
    [6, 0],
    [0, 7],
    [1, 6],
    [2, 5],
    [3, 4],
    [4, 3],
    [5, 2],
    [6, 1],
    [7, 0],
    [1, 7],
    [2, 6],
    [3, 5],
    [4, 4],
    [5, 3],
    [6, 2],
    [7, 1],
    [2, 7],
    [3, 6],
    [4, 5],
    [5, 4],
    [6, 3],
    [7, 2],
    [3, 7],
    [4, 6],
    [5, 5],
    [6, 4],
    [7, 3],
    [4, 7],
    [5, 6],
    [6, 5],
    [7, 4],
    [5, 7],
    [6, 6],
    [7, 5],
    [6, 7],
    [7, 6],
    [7, 7],
];

const ROWS8: [[u8; 2]; 64] = [
    [0, 0],
    [1, 0],
    [2, 0],
    [3, 0],
    [4, 0],
    [5, 0],
    [6, 0],
    [7, 0],
    [0, 1],
    [1, 1],
    [2, 1],
    [3, 1],
    [4, 1],
    [5, 1],
    [6, 1],
    [7, 1],
    [0, 2],
    [1, 2],
    [2, 2],
    [3, 2],
    [4, 2],
    [5, 2],
    [6, 2],
    [7, 2],
    [0, 3],
    [1, 3],
    [2, 3],
    [3, 3],
    [4, 3],
    [5, 3],
    [6, 3],
    [7, 3],
    [0, 4],
    [1, 4],
    [2, 4],
    [3, 4],
    [4, 4],
    [5, 4],
    [6, 4],
    [7, 4],
    [0, 5],
    [1, 5],
    [2, 5],
    [3, 5],
    [4, 5],
    [5, 5],
    [6, 5],
    [7, 5],
    [0, 6],
    [1, 6],
    [2, 6],
    [3, 6],
    [4, 6],
    [5, 6],
    [6, 6],
    [7, 6],
    [0, 7],
    [1, 7],
    [2, 7],
    [3, 7],
    [4, 7],
    [5, 7],
    [6, 7],
    [7, 7],
];

const COLUMNS8: [[u8; 2]; 64] = [
    [0, 0],
    [0, 1],
    [0, 2],
    [0, 3],
    [0, 4],
    [0, 5],
    [0, 6],
    [0, 7],
    [1, 0],
    [1, 1],
    [1, 2],
    [1, 3],
    [1, 4],
    [1, 5],
    [1, 6],
    [1, 7],
    [2, 0],
    [2, 1],
    [2, 2],
    [2, 3],
    [2, 4],
    [2, 5],
    [2, 6],
    [2, 7],
    [3, 0],
    [3, 1],
    [3, 2],
    [3, 3],
    [3, 4],
    [3, 5],
    [3, 6],
    [3, 7],
    [4, 0],
    [4, 1],
    [4, 2],
    [4, 3],
    [4, 4],
    [4, 5],
    [4, 6],
    [4, 7],
    [5, 0],
    [5, 1],
    [5, 2],
    [5, 3],
    [5, 4],
    [5, 5],
    [5, 6],
    [5, 7],
    [6, 0],
    [6, 1],
    [6, 2],
    [6, 3],
    [6, 4],
    [6, 5],
    [6, 6],
    [6, 7],
    [7, 0],
    [7, 1],
    [7, 2],
    [7, 3],
    [7, 4],
    [7, 5],
    [7, 6],
    [7, 7],
];

// Of an 8x8 grid.
fn eight_wide(scan: u32) -> [[u8; 2]; 64]
    requires { scan ≤ 2 }
    ensures { result ≡ pairs_of (scan_order 8 scan) }
{
    match scan {
        0 => DIAGONAL8,
        1 => ROWS8,
        _ => COLUMNS8,
    }
}

// A short order with room for the longest behind it.
fn widened(few: &[[u8; 2]]) -> [[u8; 2]; 64]
    requires { length few.now ≤ 64 }
    ensures { Begins few.now result }
{
    let mut all = [[0u8; 2]; 64];
    all[..few.len()].copy_from_slice(few);
    all
}

// Of the sub-blocks of a block: as many rows as it has sub-blocks, and room behind them.
pub fn outer_order(log2: u32, scan: u32) -> [[u8; 2]; 64]
    requires { (2 ≤ log2) × (log2 ≤ 5) × (scan ≤ 2) }
    ensures { Orders (4 ^ (log2 - 2)) (scan_order (2 ^ (log2 - 2)) scan) result }
{
    match log2 {
        2 => [[0; 2]; 64],
        3 => widened(&two_wide(scan)),
        4 => widened(&inner_order(scan)),
        _ => eight_wide(scan),
    }
}
