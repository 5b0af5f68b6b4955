// The definitions that everything stands on: bits, the engine, a syntax as a tree, the sources that read one, and their laws. Nothing here names a syntax.
#![tactic(auto)]

pub mod fetch; // fetch.rt: what a fetch answers
pub mod places; // places.rt: byte places and bit places
pub mod state; // state.rt: the engine's state
pub mod tags; // tags.rt: how many contexts, and the entries behind theirs
