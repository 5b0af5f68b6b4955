// The code that reads H.264's block, from a payload or a bin list.
#![tactic(auto)]

pub mod block; // block.rt: the whole block
pub mod entries; // entries.rt: the two entry points
