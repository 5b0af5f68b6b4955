// Where the reading of a block ended, behind a refusal too (document 02, request (xii)).
#![tactic(auto)]

pub mod entries; // entries.rt: the entry point
