// Sizes of an accepted block, and the places that are cleared for it.
#![tactic(auto)]

pub mod clear; // clear.rt: zero in the first places of a lent block
pub mod sizes; // sizes.rt: sizes by log2
