// The bin lists of a tray of blocks as one payload.
#![tactic(auto)]

pub mod entries; // entries.rt: the checks and the entry point
pub mod lists; // lists.rt: the lists, one after the other
