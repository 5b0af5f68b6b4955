// The significant places of a sub-block, as reader and writer both go by them.
#![tactic(auto)]

pub mod places; // places.rt: places packed into one number, and the contexts of their flags
