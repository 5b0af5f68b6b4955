// What the bench links: the writer of bins as a function that C and Rust call.
#![tactic(auto)]

pub mod lists; // lists.rt: the writer of bins
