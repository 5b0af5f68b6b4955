// A sub-block of a block, from either source.
#![tactic(auto)]

pub mod subs; // subs.rt: one sub-block
