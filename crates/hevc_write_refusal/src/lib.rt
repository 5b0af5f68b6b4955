// What the bin writer refuses of a block, in document 01's order.
#![tactic(auto)]

pub mod refusal; // refusal.rt: what a writer refuses
