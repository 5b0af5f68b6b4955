// One step of a syntax from a bin list.
#![tactic(auto)]

pub mod list; // list.rt: the steps from a bin list
