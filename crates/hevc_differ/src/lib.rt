// Whether a block can depend on the difference of two payloads (document 02, request (xii)).
#![tactic(auto)]

pub mod entries; // entries.rt: the judgement
