// The morning figures: their definition, what is counted over a list of blocks, laws.
#![tactic(auto)]

pub mod add; // add.rt: the figures
pub mod out; // out.rt: what is read out of a place
