// The numbers of H.264's contexts of a magnitude, as reader and writer both go by them.
#![tactic(auto)]

pub mod numbers; // numbers.rt: the contexts of a magnitude's bins
