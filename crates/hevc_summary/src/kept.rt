// A kept block: n·n levels, a record for each 4x4 sub-block (counts and sums), and one for the whole.

// What a kept block is made for: its size and its range.
#[repr(C)]
#[derive(Clone, Copy)]
pub struct Form {
    pub log2: u32, // the block is n by n, n = 2^log2
    pub bits: u32, // T: levels are -2^T to 2^T - 1
}

// The record of the whole.
#[repr(C)]
#[derive(Clone, Copy)]
pub struct Whole {
    pub count: u64, // levels that are not zero
    pub sum: u64, // of magnitudes
    pub map: u64, // bit s: sub-block s holds a level
}

// The record of a sub-block.
#[derive(Clone, Copy)]
pub struct Tally {
    pub count: u32,
    pub sum: u64,
}

// What a change answers: 0 with the new record of the whole, or the number of the refusal with the record handed in.
// No Result: the C interface hands this record out as it stands.
#[repr(C)]
#[derive(Clone, Copy)]
pub struct Changed {
    pub number: u32,
    pub whole: Whole,
}
