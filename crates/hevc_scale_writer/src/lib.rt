// The scale of one chroma component as bins.
#![tactic(auto)]

pub mod entries; // entries.rt: the entry point
pub mod write; // write.rt: the scale as bins
