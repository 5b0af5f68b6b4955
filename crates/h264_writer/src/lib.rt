// The bin writer of H.264's block.
#![tactic(auto)]

pub mod entries; // entries.rt: the entry point
mod refusal; // refusal.rt: what a writer refuses
