// Bins into a lent room, one entry at a time.
#![tactic(auto)]

pub mod room; // room.rt: one entry
