// The scale of cross-component prediction, from either source.
#![tactic(auto)]

pub mod layout; // layout.rt: the numbers of its contexts
pub mod syntax; // syntax.rt: the scale's syntax, from either source
