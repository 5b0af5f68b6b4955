// How wide a block's grid is: digits, cells, and the columns that fit into 80.
ghost use Rattle.std.specs.Prelude.{◌≤◌};

use grid_places::places::side;

pub fn digits(n: u32) -> usize
    ensures { (1 ≤ result) × (result ≤ 8) }
{
    if n < 10 {
        return 1;
    }
    if n < 100 {
        return 2;
    }
    if n < 1000 {
        return 3;
    }
    if n < 10000 {
        return 4;
    }
    if n < 100000 {
        return 5;
    }
    8
}

// How cells are laid out: the width of one, and whether large levels stand in brackets, for which two of it are kept.
#[derive(Clone, Copy)]
pub struct Form {
    pub width: usize,
    pub brackets: bool,
    pub greatest: u32,
}

fn bare(greatest: u32) -> Form {
    Form {
        width: digits(greatest) + 1,
        brackets: false,
        greatest,
    }
}

fn bracketed(greatest: u32) -> Form {
    Form {
        width: digits(greatest) + 3,
        brackets: true,
        greatest,
    }
}

// How many columns fit into 80 characters, whole sub-blocks of them, beside 3 for the row's number and 1 for the line before each sub-block.
pub fn columns_that_fit(width: usize) -> usize
    ensures { (1 ≤ result) × (result ≤ 32) }
{
    match width {
        2 => 32,
        3 => 20,
        4 => 16,
        5 => 12,
        6 => 12,
        7 => 8,
        8 => 8,
        9 => 8,
        _ => 4,
    }
}

pub fn form_of(log2: u32, greatest: u32) -> Form {
    let f = bracketed(greatest);
    if columns_that_fit(f.width) < side(log2) {
        return bare(greatest);
    }
    f
}

pub fn level(block: &[i32; 1024], first: usize, column: usize) -> i32
    requires { first ≤ 992 }
{
    if 31 < column {
        return 0;
    }
    block[first + column]
}
