// Exp-Golomb codes of any order: what a prefix and its suffix stand for, and how long a prefix is.
#![tactic(auto)]

ghost use Rattle.std.specs.Prelude.{◌≡◌, ◌+◌, ◌-◌, ◌≤◌};
ghost use Rattle.trees.specs.Shapes.{eg_base};
ghost use Rattle.exp_golomb.specs.PrefixLaws.{Prefixed};

// What n ones of an Exp-Golomb prefix of order k stand for, and the suffix behind them.
pub fn whole_of(n: u32, k: u32, suffix: u32) -> u64
    requires { (n ≤ 31) × (k ≤ 22) }
    ensures { result ≡ eg_base k n + suffix }
{
    (((1u64 << n) - 1) << k) + suffix as u64
}

// How many ones an Exp-Golomb prefix of order k has for v, of at most so many.
pub fn eg_count(k: u32, v: u32, most: u32) -> u32
    requires { (k ≤ 22) × (most ≤ 31) }
    ensures { Prefixed k v most result }
{
    for n in 0..most {
        if (v as u64) < whole_of(n + 1, k, 0) {
            return n;
        }
    }
    most
}

// What v exceeds that many ones by.
pub fn eg_rest(n: u32, k: u32, v: u32) -> u32
    requires { (n ≤ 31) × (k ≤ 22) × (eg_base k n ≤ v) }
    ensures { result ≡ v - eg_base k n }
{
    v - whole_of(n, k, 0) as u32
}
