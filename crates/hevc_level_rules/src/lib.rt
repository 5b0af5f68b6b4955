// Rules of the levels of a sub-block that read and write nothing: reader and writer go by the same ones.
#![tactic(auto)]

pub mod greater; // greater.rt: greater1Ctx from bin to bin
pub mod levels; // levels.rt: from level to level
