// What stands before a block's sub-blocks (H.265 7.3.8.11), from a bin list or a payload.
#![tactic(auto)]

pub mod head; // head.rt: what stands before the sub-blocks
