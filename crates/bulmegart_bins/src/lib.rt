// What the bench links: a decision and a terminate bin.
#![tactic(auto)]

pub mod decode;
