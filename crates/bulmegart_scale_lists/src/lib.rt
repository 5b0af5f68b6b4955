// What the bench links: the cross-component scale out of a bin list and as one, as functions that C and Rust call.
#![tactic(auto)]

pub mod scales; // scales.rt: the list's reader and writer
