// The numbers and the order of document 01 for what is read from a payload, and the answers of the entry points.
#![tactic(auto)]

pub mod answers; // answers.rt: the answers of the entry points
