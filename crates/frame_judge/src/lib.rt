// The verdict on a frame of the book of test pieces.
#![tactic(auto)]

pub mod judge; // judge.rt: the verdict on a frame
