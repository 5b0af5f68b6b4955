// A decoder that holds a reference to its payload, for any syntax.
#![tactic(auto)]

pub mod decoder; // decoder.rt: the engine's entry points as its methods
