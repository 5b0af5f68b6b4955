// The levels of one sub-block: which places are significant, greater1, greater2, signs, remainders.
#![tactic(auto)]

pub mod coeffs; // coeffs.rt: the levels at the significant places
pub mod greater; // greater.rt: coeff_abs_level_greater1_flag
pub mod places; // places.rt: sig_coeff_flag
