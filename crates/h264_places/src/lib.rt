// The significant places of H.264's 4x4 block, from either source.
#![tactic(auto)]

pub mod places; // places.rt: the significant places
