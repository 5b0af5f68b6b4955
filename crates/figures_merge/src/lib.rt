// Two benches' figures put together.
#![tactic(auto)]

pub mod merge;
