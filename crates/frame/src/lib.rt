// A frame of the book of test pieces: its fields, and the verdict on it.
#![tactic(auto)]

pub mod fields; // fields.rt: the parameters that the header spells
pub mod judge; // judge.rt: the verdict
