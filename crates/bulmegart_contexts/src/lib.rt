// What the bench links: initialisation of contexts.
#![tactic(auto)]

pub mod contexts;
