// The number of a place in a scan order, by formula.
ghost use Rattle.std.specs.Prelude.{◌≡◌, ◌+◌, ◌-◌, ◌*◌, ◌^◌, ◌≤◌, ◌<◌};
ghost use Rattle.hevc_residual.specs.Scan.{scan_order, number_in};
ghost use Rattle.hevc_scans.specs.Numbers.{triangle, diagonal_number};

// The places of the n diagonals that grow by one from 1 on.
fn triangle_of(n: u32) -> u32
    requires { n ≤ 8 }
    ensures { result ≡ triangle n }
{
    n * (n + 1) / 2
}

// Behind the longest diagonal the places are counted from the end.
fn on_diagonal(w: u32, x: u32, y: u32) -> u32
    requires { (w ≤ 8) × (x < w) × (y < w) }
    ensures { result ≡ diagonal_number w x y }
{
    let d = x + y;
    if d < w {
        return triangle_of(d) + x;
    }
    w * w - 1 - (triangle_of(2 * w - 2 - d) + (w - 1 - x))
}

pub fn number_in(log2w: u32, scan: u32, x: u32, y: u32) -> u32
    requires { (log2w ≤ 3) × (scan ≤ 2) × (x < 2 ^ log2w) × (y < 2 ^ log2w) }
    ensures { result ≡ number_in (scan_order (2 ^ log2w) scan) x y }
{
    let w = 1 << log2w;
    match scan {
        0 => on_diagonal(w, x, y),
        1 => y * w + x,
        _ => x * w + y,
    }
}
