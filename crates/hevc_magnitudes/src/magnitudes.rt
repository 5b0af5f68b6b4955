// The magnitude of a level: the range that it must be in (H.265 7.4.3.2.2, CoeffMinY and CoeffMaxY), how the Rice parameter and the statistic move behind it, and how long an escape is (9.3.3.11).
ghost use Rattle.std.specs.Prelude.{◌≡◌, ◌+◌, ◌≤◌};
ghost use Rattle.hevc_residual.specs.Remainder.{log2_transform_range, in_range, rice_next, stat_next};
ghost use Rattle.hevc_magnitudes.specs.Most.{most};
ghost use Rattle.hevc_magnitudes.specs.Escape.{escape_length};

use hevc_residual::params::Params;

// T, where the coefficient range is −2^T to 2^T−1.
pub fn range_bits(p: Params) -> u32
    requires { p.depth ≤ 16 }
    ensures { result ≡ log2_transform_range p }
{
    if p.extended {
        (p.depth + 6).max(15)
    } else {
        15
    }
}

pub fn in_range(t: u32, negative: bool, m: u32) -> bool
    requires { t ≤ 22 }
    ensures { result ≡ in_range t negative m }
{
    if negative { m <= 1 << t } else { m < 1 << t }
}

// The Rice parameter behind a level of magnitude m; without persistent Rice it stops at 4.
pub fn rice_next(p: Params, rice: u32, m: u32) -> u32
    requires { rice ≤ 21 }
    ensures { result ≡ rice_next p rice m }
{
    if m <= 3 << rice {
        return rice;
    }
    if p.persistent {
        return rice + 1;
    }
    (rice + 1).min(4)
}

// The statistic behind the first remainder of a sub-block.
pub fn stat_next(s: u8, v: u32) -> u8
    requires { (s ≤ 84) × (v ≤ most) }
    ensures { result ≡ stat_next s v }
{
    let q = (s / 4) as u32;
    if 3 << q <= v {
        return s + 1;
    }
    if 2 * v < 1 << q {
        s.saturating_sub(1)
    } else {
        s
    }
}

// The suffix of the limited form: T bits at the greatest prefix.
pub fn escape_length(t: u32, n: u32, k: u32) -> u32
    requires { (t ≤ 22) × (n ≤ 13) × (k ≤ 22) }
    ensures { result ≡ escape_length t k n }
{
    if n == 28 - t { t } else { n + k }
}
