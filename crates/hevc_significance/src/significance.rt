// The contexts of sig_coeff_flag (H.265 9.3.4.2.5), as a nested constant array and small choices; and the same of a whole sub-block in one number.
ghost use Rattle.std.specs.Prelude.{◌≡◌, ℕ, ◌+◌, ◌*◌, ◌≤◌, ◌<◌, leb};
ghost use Rattle.bins.specs.Readers.{odd};
ghost use Rattle.hevc_residual.specs.Scan.{by_neighbours, sig_ctx};
ghost use Rattle.hevc_scans.specs.Pairs.{map_rows};
ghost use Rattle.hevc_scans.specs.SigWords.{four_at, map_at, near_at};
ghost use Rattle.hevc_scans.specs.SigLaws.{luma_of, plus_of};

const MAP4: [[u8; 4]; 4] = [[0, 1, 4, 5], [2, 3, 4, 5], [6, 6, 8, 8], [7, 7, 8, 99]];

// A caller takes the map once, and lends it.
pub fn map4() -> [[u8; 4]; 4]
    ensures { result ≡ map_rows }
{
    MAP4
}

// By which neighbours are coded, right 1 and below 2, at a place within the sub-block.
fn near(neighbours: u32, x: u32, y: u32) -> u32
    requires { (neighbours ≤ 3) × (x ≤ 3) × (y ≤ 3) }
    ensures { result ≡ by_neighbours (odd neighbours) (leb 2 neighbours) x y }
{
    match neighbours {
        0 => match x + y {
            0 => 2,
            1..=2 => 1,
            _ => 0,
        },
        1 => match y {
            0 => 2,
            1 => 1,
            _ => 0,
        },
        2 => match x {
            0 => 2,
            1 => 1,
            _ => 0,
        },
        _ => 2,
    }
}

// What luma adds to that by size and scan.
fn luma_plus(log2: u32, scan: u32) -> u32
    ensures { result ≡ luma_of log2 scan }
{
    if log2 == 3 {
        if scan == 0 {
            return 9;
        }
        return 15;
    }
    21
}

// What is added by component, size, scan and whether the sub-block lies outside the first.
pub fn plus(log2: u32, luma: bool, scan: u32, outside: bool) -> u32
    ensures { result ≡ plus_of log2 luma scan outside }
{
    if luma {
        let inside = luma_plus(log2, scan);
        if outside {
            return inside + 3;
        }
        return inside;
    }
    if log2 == 3 { 36 } else { 39 }
}

// sig_ctx at place (x, y) of sub-block (xs, ys): the rule of a single place. Reader and writer take the words below, which hold the same numbers for a whole sub-block.
pub fn sig_ctx(
    map: &[[u8; 4]; 4],
    log2: u32,
    luma: bool,
    scan: u32,
    neighbours: u32,
    xs: u32,
    ys: u32,
    x: u32,
    y: u32,
) -> u32
    requires { (map.now ≡ map_rows) × (2 ≤ log2) × (log2 ≤ 5) × (scan ≤ 2) × (neighbours ≤ 3) × (xs ≤ 7) × (ys ≤ 7) × (x ≤ 3) × (y ≤ 3) × (log2 ≡ 2 → (xs ≡ 0) × (ys ≡ 0)) }
    ensures { result ≡ sig_ctx log2 luma scan (odd neighbours) (leb 2 neighbours) (4 * xs + x) (4 * ys + y) }
{
    if log2 == 2 {
        let m = map[y as usize][x as usize] as u32;
        return if luma { m } else { 27 + m };
    }
    if xs + ys + x + y == 0 {
        return if luma { 0 } else { 27 };
    }
    plus(log2, luma, scan, 0 < xs + ys) + near(neighbours, x, y)
}

// ctx_idx_map at the places of a 4x4 block's scan, four bits a place; the last place is never asked for.
pub fn map_word(scan: u32) -> u64
    requires { scan ≤ 2 }
    ensures { (k : ℕ) → k < 15 → four_at result k ≡ map_at scan k }
{
    match scan {
        0 => 614045720785412384,
        1 => 610106247612617744,
        _ => 600535952945935904,
    }
}

// By which neighbours are coded, right 1 and below 2, at the places of a sub-block's scan, four bits a place.
pub fn near_word(neighbours: u32, scan: u32) -> u64
    requires { (neighbours ≤ 3) × (scan ≤ 2) }
    ensures { (k : ℕ) → k < 16 → four_at result k ≡ near_at neighbours scan k }
{
    match neighbours {
        0 => match scan {
            0 => 1118482,
            _ => 4296081682,
        },
        1 => match scan {
            0 => 281616712794642,
            1 => 286335522,
            _ => 5066626891382802,
        },
        2 => match scan {
            0 => 1099813691682,
            1 => 5066626891382802,
            _ => 286335522,
        },
        _ => 2459565876494606882,
    }
}
