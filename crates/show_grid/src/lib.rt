// A block as a grid of text.
#![tactic(auto)]

pub mod grid; // grid.rt: the levels
