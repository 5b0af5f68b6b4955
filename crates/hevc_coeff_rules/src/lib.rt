// The rules of a sub-block's flags: context numbers, alignment, hiding, sb_type.
#![tactic(auto)]

pub mod coeffs; // coeffs.rt: context numbers, alignment, hiding, sb_type
