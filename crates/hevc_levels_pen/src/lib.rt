// Flags, signs and remainders of a sub-block's levels as bins.
#![tactic(auto)]

pub mod greater; // greater.rt: coeff_abs_level_greater1_flag and greater2
pub mod levels; // levels.rt: remainders
pub mod signs; // signs.rt: coeff_sign_flag as a number
