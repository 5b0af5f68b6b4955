// A block or a refusal added to the figures.
#![tactic(auto)]

pub mod add;
