// How many contexts are lent, and the entries of a bin list behind theirs. specs/Tags.antt has the same numbers; a proof joins them.
pub const CONTEXTS: usize = 130;

// Bypass stands as one more number behind the contexts'.
pub const BYPASS: u32 = CONTEXTS as u32;

// The entry of an alignment of the range.
pub const ALIGNMENT: u32 = 2 * BYPASS + 2;
