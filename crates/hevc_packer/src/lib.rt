// Packing (request (x)): what a packed block, scale and tray are, and a scale's list as a payload in a lent room.
#![tactic(auto)]

pub mod entries; // entries.rt: the entry point of a scale, and what is looked at before a block
