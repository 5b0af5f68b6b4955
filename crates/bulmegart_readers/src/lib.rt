// What the bench links: the block readers as functions that C and Rust call.
#![tactic(auto)]

pub mod blocks; // blocks.rt: the two block readers
