// H.264's initial contexts, from pairs.
#![tactic(auto)]

pub mod contexts; // contexts.rt: initial contexts from pairs
