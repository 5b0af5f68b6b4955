// A whole block from a payload or a list, behind the checks.
#![tactic(auto)]

pub mod block; // block.rt: the whole block
