// Records of the engine's entry points, the block readers and the bin writer, answered for the program cases.
#![tactic(auto)]

pub mod blocks; // blocks.rt: the block readers
pub mod coder; // coder.rt: the two that code a block
pub mod engine; // engine.rt: the engine's entry points
pub mod writes; // writes.rt: the bin writer
