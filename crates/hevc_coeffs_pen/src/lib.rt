// The levels at the significant places of a sub-block as bins.
#![tactic(auto)]

pub mod coeffs; // coeffs.rt: all that stands behind the significance flags
