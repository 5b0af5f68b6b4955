// What a block reader and the bin writer answer to C and Rust.
#![tactic(auto)]

pub mod blocks; // blocks.rt: the readers' answers
pub mod lists; // lists.rt: the writer's answer, and what it is handed
