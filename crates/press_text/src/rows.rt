// The lines with levels: numbers parted by blanks, a dot for 0.
ghost use Rattle.std.specs.Prelude.{◌≤◌};

use crate::words::{BadInput, Why};
use check::same;
use octet_scan::find;
use press_tokens::tokens::{end_of, start_of};
use text::lines::part;
use text_fields::fields::decimal;

fn turned(m: u32) -> i32
    requires { m ≤ 2147483647 }
{
    -(m as i32)
}

// Digits, of a number that an i32 holds.
fn digits(s: &[u8], negative: bool) -> Option<i32> {
    match decimal(s) {
        Some(n) => {
            if 2147483647 < n {
                return None;
            }
            let m = n as u32;
            if negative {
                return Some(turned(m));
            }
            Some(m as i32)
        }
        None => None,
    }
}

fn level_of(s: &[u8]) -> Option<i32> {
    if same(s, b".") {
        return Some(0);
    }
    if same(part(s, 0, 1), b"-") {
        return digits(part(s, 1, s.len()), true);
    }
    digits(s, false)
}

fn put(levels: &mut [i32; 1024], first: usize, n: usize, v: i32) {
    if 1023 < first {
        return;
    }
    if 1023 - first < n {
        return;
    }
    levels[first + n] = v;
}

// The levels from a place of the line on, at most so many, put behind one another from a place of the block on.
fn numbers(
    s: &[u8],
    from: usize,
    marks: bool,
    levels: &mut [i32; 1024],
    first: usize,
    most: usize,
) -> Result<usize, BadInput> {
    let mut n: usize = 0;
    let mut at = start_of(s, from, marks);
    while at < s.len() {
        if most <= n {
            return Err(BadInput {
                at: at,
                why: Why::Many,
            });
        }
        let to = end_of(s, at, marks);
        let Some(v) = level_of(part(s, at, to)) else {
            return Err(BadInput {
                at: at,
                why: Why::Level,
            });
        };
        put(levels, first, n, v);
        n += 1;
        at = start_of(s, to, marks);
    }
    Ok(n)
}

// n of the size. grid_places has it and `first_of` for a u32, where any other number is 32x32: the crates that this one may know (crates.txt) have no such.
pub fn side(log2: u8) -> usize
    ensures { result ≤ 32 }
{
    match log2 {
        2 => 4,
        3 => 8,
        4 => 16,
        5 => 32,
        _ => 0,
    }
}

// The place of a row's first level.
fn first_of(log2: u8, row: usize) -> usize {
    if 31 < row {
        return 0;
    }
    match log2 {
        2 => 4 * row,
        3 => 8 * row,
        4 => 16 * row,
        _ => 32 * row,
    }
}

// A row of n numbers; the rows come one after the other.
pub fn plain(
    s: &[u8],
    log2: u8,
    row: usize,
    levels: &mut [i32; 1024],
    filled: &mut [usize; 32],
) -> Result<usize, BadInput> {
    let n = side(log2);
    if n <= row {
        return Err(BadInput {
            at: 0,
            why: Why::Rows,
        });
    }
    let k = numbers(s, 0, false, levels, first_of(log2, row), n)?;
    if k < n {
        return Err(BadInput {
            at: s.len(),
            why: Why::Few,
        });
    }
    filled[row] = n;
    Ok(k)
}

// A row as `show` prints it: its number, a bar, and levels with bars and brackets. Those of a panel stand behind those of the panel above.
pub fn shown(
    s: &[u8],
    log2: u8,
    levels: &mut [i32; 1024],
    filled: &mut [usize; 32],
) -> Result<usize, BadInput> {
    let n = side(log2);
    let bar = find(s, 0, s.len(), b'|');
    let a = start_of(s, 0, false);
    let Some(row) = decimal(part(s, a, end_of(s, a, true))) else {
        return Err(BadInput {
            at: a,
            why: Why::Row,
        });
    };
    if 31 < row {
        return Err(BadInput {
            at: a,
            why: Why::Row,
        });
    }
    let i = row as usize;
    if n <= i {
        return Err(BadInput {
            at: a,
            why: Why::Row,
        });
    }
    let before = filled[i];
    if n < before {
        return Err(BadInput {
            at: a,
            why: Why::Many,
        });
    }
    let first = first_of(log2, i);
    if 1024 < first {
        return Err(BadInput {
            at: a,
            why: Why::Row,
        });
    }
    let k = numbers(s, bar, true, levels, first + before, n - before)?;
    if k <= n - before {
        filled[i] = before + k;
    }
    Ok(k)
}

// The first row that is not full; n where all are.
pub fn missing(n: usize, filled: &[usize; 32]) -> usize {
    for row in 0..n.min(32) {
        if filled[row] < n {
            return row;
        }
    }
    n
}
