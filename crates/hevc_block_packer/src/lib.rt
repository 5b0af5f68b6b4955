// A block's bin list as a payload in a lent room.
#![tactic(auto)]

pub mod entries; // entries.rt: the entry point
