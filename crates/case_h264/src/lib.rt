// The records of H.264's block.
#![tactic(auto)]

pub mod h264; // h264.rt: the block of H.264
