// Figures over blocks of one size: for every place a count, a sum and the greatest, lent as three arrays; a tally for every number; and the totals.

// What is not by place or by number.
#[repr(C)]
#[derive(Clone, Copy)]
pub struct Totals {
    pub log2: u32, // the blocks are n by n, n = 2^log2
    pub accepted: u32, // blocks
    pub past: u64, // the sum of their totals past the end
}

// What adding answers: 0 with the new totals, or the number of the refusal with the totals handed in. C has it so (include/bulmegart.h).
#[repr(C)]
#[derive(Clone, Copy)]
pub struct Added {
    pub number: u32,
    pub totals: Totals,
}
