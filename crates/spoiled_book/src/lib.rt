// The salvage of a spoiled book, which comes in pieces of any length (crate spoiled, specs/Gave.antt, run-whole: no cut matters).
#![tactic(auto)]

pub mod salvage; // salvage.rt: piece after piece, and the end
