// A level of a kept block changed.
#![tactic(auto)]

pub mod kept; // kept.rt: the change
