// The places and levels of H.264's 4x4 block, from either source.
#![tactic(auto)]

pub mod levels; // levels.rt: the levels at the significant places
pub mod magnitude; // magnitude.rt: a magnitude
