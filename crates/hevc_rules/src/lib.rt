// Rules of the residual syntax that read and write nothing: reader and writer go by the same ones.
#![tactic(auto)]

pub mod coeffs; // coeffs.rt: what goes from sub-block to sub-block
pub mod levels; // levels.rt: what goes from level to level
pub mod subs; // subs.rt: neighbours, flag, first places, ctxSet
