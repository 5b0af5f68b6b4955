// HEVC's syntax elements as bins into a lent room.
#![tactic(auto)]

pub mod head; // head.rt: what stands before the sub-blocks
pub mod remainder; // remainder.rt: coeff_abs_level_remaining
pub mod shapes; // shapes.rt: the small shapes that elements are made of
