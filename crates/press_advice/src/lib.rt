// What is said of a drawing that no picture can hold: which place is at fault, and which single change would do.
#![tactic(auto)]

pub mod advice; // advice.rt: the two answers
