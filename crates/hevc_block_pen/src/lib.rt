// A block's sub-blocks as bins into a lent room.
#![tactic(auto)]

pub mod places; // places.rt: sig_coeff_flag
pub mod subs; // subs.rt: sub-blocks from the last one down
