// The contexts of a magnitude's bins, behind so many magnitudes of 1 and so many above 1.
ghost use Rattle.std.specs.Prelude.{◌≡◌, cond, ◌+◌, min, ltb};

// That of the first bin.
pub fn first_number(ones: u32, bigs: u32) -> usize
    ensures { result ≡ 30 + cond (ltb 0 bigs) 0 (min 4 (1 + ones)) }
{
    if 0 < bigs {
        return 30;
    }
    if ones < 3 {
        return 31 + ones as usize;
    }
    34
}

// And that of the others.
pub fn later_number(bigs: u32) -> usize
    ensures { result ≡ 30 + (5 + min 4 bigs) }
{
    if bigs < 4 {
        return 35 + bigs as usize;
    }
    39
}
