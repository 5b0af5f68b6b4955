// The single changes of a level that is not 0: stroke 0 makes its magnitude one more, stroke 1 one less, stroke 2 turns its sign.
ghost use Rattle.std.specs.Prelude.{◌≡◌, not, cond, ◌+◌, ◌-◌, ◌≤◌, ◌<◌, eqb, pos, nat_abs, get_or};
ghost use Rattle.trees.specs.Levels.{negative, signed};
ghost use Rattle.press_strokes.specs.Advice.{sign_behind, magnitude_behind, stroke_of};

use level_sizes::sizes::{is_negative, magnitude};

pub fn magnitude_at(levels: &[i32; 1024], i: usize) -> u32
    requires { i < 1024 }
    ensures { result ≡ nat_abs (get_or levels.now i (pos 0)) }
{
    magnitude(levels[i])
}

fn negative_at(levels: &[i32; 1024], i: usize) -> bool
    requires { i < 1024 }
    ensures { result ≡ negative (get_or levels.now i (pos 0)) }
{
    is_negative(levels[i])
}

fn sign_behind(k: usize, negative: bool) -> bool
    ensures { result ≡ sign_behind k negative }
{
    if k == 2 {
        return !negative;
    }
    negative
}

fn magnitude_behind(k: usize, m: u32) -> u32
    requires { (0 < m) × (m < 4194304) }
    ensures { (result ≡ magnitude_behind k m) × (result ≤ 4194304) }
{
    if k == 0 {
        return m + 1;
    }
    if k == 1 {
        return m - 1;
    }
    m
}

fn signed_of(negative: bool, m: u32) -> i32
    requires { m ≤ 4194304 }
    ensures { result ≡ signed negative m }
{
    if negative {
        return -(m as i32);
    }
    m as i32
}

// The level at place i behind stroke k.
pub fn stroke_at(levels: &[i32; 1024], i: usize, k: usize) -> i32
    requires { (i < 1024) × (0 < nat_abs (get_or levels.now i (pos 0))) × (nat_abs (get_or levels.now i (pos 0)) < 4194304) }
    ensures { result ≡ stroke_of k (get_or levels.now i (pos 0)) }
{
    let sign = sign_behind(k, negative_at(levels, i));
    let m = magnitude_behind(k, magnitude_at(levels, i));
    signed_of(sign, m)
}
