// Initialisation of contexts from their initial values.
#![tactic(auto)]

pub mod contexts; // contexts.rt: one context, and all that are lent
