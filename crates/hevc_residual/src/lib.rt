// The residual syntax of H.265 (7.3.8.11): one transform block of levels, from any source of bins.
#![tactic(auto)]

pub mod layout; // layout.rt: how many contexts a block has
pub mod params; // params.rt: what a block is read and written with
pub mod answers; // answers.rt: the answers of the entry points that read and write a block
