// What the bench links: the cross-component scale out of a payload, as a function that C and Rust call.
#![tactic(auto)]

pub mod scales; // scales.rt: the answers, and the payload's reader
