// The summary of a block counted afresh, and what its form must be.
#![tactic(auto)]

pub mod counts; // counts.rt: one sub-block, and all of them
