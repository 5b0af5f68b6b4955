// A level's sign and magnitude, and the greatest of several: every syntax's.
#![tactic(auto)]

pub mod sizes; // sizes.rt: signs and magnitudes
