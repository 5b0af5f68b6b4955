// Figures begun and read out.
#![tactic(auto)]

pub mod begin; // begin.rt: figures of no block
pub mod out; // out.rt: a place, a tally
