// The state that every entry point over a payload opens and settles.
#![tactic(auto)]

pub mod engine; // engine.rt: the state opened and settled
