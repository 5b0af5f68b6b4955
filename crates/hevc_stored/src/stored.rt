// A level at its place, and what is told of the levels stored so far.
ghost use Rattle.std.specs.Prelude.{◌≡◌, ◌&&◌, ◌-◌, ◌≤◌, ◌<◌, eqb, pos, nat_abs, length, get_or, set};
ghost use Rattle.hevc_residual.specs.Remainder.{signed};
ghost use Rattle.hevc_residual.specs.SubBlock.{negative_now};
ghost use Rattle.hevc_stored.specs.StoredAgree.{stored_of, Keeps};
ghost use Rattle.hevc_residual.specs.Wanted.{area};
ghost use Rattle.hevc_residual.specs.Limits.{Accepted};
ghost use Rattle.hevc_residual.specs.Residual.{greatest_of};
ghost use Rattle.hevc_residual.specs.Extent.{row_extent_of};

use hevc_residual::params::Params;
use level_sizes::sizes::{greatest, larger};

// What is told of the levels stored so far, so that the block need not be looked through at its end.
#[derive(Clone, Copy)]
pub struct Stored {
    pub greatest: u32, // the greatest magnitude, while clean
    pub far: u32, // the furthest place that was written: its row is the row extent
    pub clean: bool, // every place was 0 when it was written
}

// The next sign bin, or, where it is hidden, whether the sum is odd. Signs are left in the number signs.
pub fn is_negative(left: u32, signs: u32, sum: u32) -> bool
    requires { left ≤ 16 }
    ensures { result ≡ negative_now left signs sum }
{
    if left == 0 {
        return sum % 2 == 1;
    }
    (signs >> (left - 1)) % 2 == 1
}

pub fn store(block: &mut [i32], at: usize, negative: bool, m: u32)
    requires { (at < length block.old) × (m ≤ 4194304) }
    ensures { block.new ≡ set block.old at (signed negative m) }
{
    if negative {
        block[at] = -(m as i32);
    } else {
        block[at] = m as i32;
    }
}

// Whether no level stands there yet.
pub fn is_free(block: &[i32], at: usize) -> bool
    requires { at < length block.now }
    ensures { result ≡ eqb (nat_abs (get_or block.now at (pos 0))) 0 }
{
    block[at] == 0
}

// What is told behind a level of magnitude m at a place that was free or was not.
pub fn stored_behind(k: Stored, free: bool, m: u32, at: u32) -> Stored
    ensures { result ≡ stored_of k free m at }
{
    Stored {
        greatest: larger(k.greatest, m),
        far: larger(k.far, at),
        clean: k.clean && free,
    }
}

// What the levels tell: the row extent and the greatest magnitude.
#[derive(Clone, Copy)]
pub struct Told {
    pub row: u32,
    pub greatest: u32,
}

// They were gathered as the levels were stored; only if a place was written twice is the greatest one looked for.
pub fn told_of(block: &[i32], p: Params, k: Stored) -> Told
    requires { Accepted p × (length block.now ≡ area p) × Keeps p k block.now }
    ensures { (result.row ≡ row_extent_of p block.now) × (result.greatest ≡ greatest_of block.now) }
{
    let row = k.far >> p.log2;
    if k.clean {
        return Told {
            row,
            greatest: k.greatest,
        };
    }
    Told {
        row,
        greatest: greatest(block),
    }
}
