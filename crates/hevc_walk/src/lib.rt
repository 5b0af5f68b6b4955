// The walk over a block's sub-blocks, from the last one down, from either source.
#![tactic(auto)]

pub mod walk; // walk.rt: all sub-blocks
