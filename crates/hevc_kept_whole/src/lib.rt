// A kept block changed as a whole: counted anew, cleared, copied in.
#![tactic(auto)]

pub mod whole; // whole.rt: the changes
