// The fields of a line, and the numbers and bytes that they spell.
#![tactic(auto)]

pub mod fields; // fields.rt
