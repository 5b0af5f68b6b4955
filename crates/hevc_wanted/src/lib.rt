// What the bin writer looks at in the block that it is handed.
#![tactic(auto)]

pub mod last; // last.rt: the last place with a level
pub mod sub; // sub.rt: one sub-block of it
