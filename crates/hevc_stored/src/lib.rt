// Levels stored at their places, and what is told of them.
#![tactic(auto)]

pub mod stored; // stored.rt: a level at its place, and what is told of the levels stored so far
