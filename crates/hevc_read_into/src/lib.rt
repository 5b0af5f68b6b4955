// A block into lent memory, from either source.
#![tactic(auto)]

pub mod into; // into.rt: the reading, put back where it is refused
