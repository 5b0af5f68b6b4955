// A block with its summary kept beside it, for C: one record for each 4x4 sub-block, lent as two arrays of 64, and one for the whole.
#![tactic(auto)]

pub mod readers;
