// The scale of one chroma component, out of a payload or a bin list.
#![tactic(auto)]

pub mod entries; // entries.rt: the entry points
