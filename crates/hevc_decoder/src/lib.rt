// A block by a decoder that holds a reference to its payload.
#![tactic(auto)]

pub mod decoder; // decoder.rt: thin functions over the entry point
