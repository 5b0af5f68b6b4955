// What reader and writer both go by before the sub-blocks.
#![tactic(auto)]

pub mod head; // head.rt: which flags are coded, groups of the last position, the head
