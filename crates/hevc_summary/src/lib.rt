// A block with its summary kept beside it: the records, their definition, laws.
#![tactic(auto)]

pub mod kept; // kept.rt: the records
pub mod reading; // reading.rt: what reading into it answers
