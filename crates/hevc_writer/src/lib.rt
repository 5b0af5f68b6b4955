// The writer of bins: one block of levels as a list of bins in a lent room.
#![tactic(auto)]

pub mod entries; // entries.rt: the entry point
