// The levels of a sub-block: signs and remainders, stored at their places.
#![tactic(auto)]

pub mod levels; // levels.rt: signs and remainders, and the levels that they make
