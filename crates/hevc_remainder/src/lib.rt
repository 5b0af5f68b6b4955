// coeff_abs_level_remaining (H.265 9.3.3.11), from a bin list or a payload.
#![tactic(auto)]

pub mod remainder; // remainder.rt: coeff_abs_level_remaining
