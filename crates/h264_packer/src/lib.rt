// H.264's bin lists as payloads.
#![tactic(auto)]

pub mod entries; // entries.rt: the entry point
