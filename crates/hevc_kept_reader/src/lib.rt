// Reading into a block with its summary.
#![tactic(auto)]

pub mod reading; // reading.rt: from a payload and from a list
