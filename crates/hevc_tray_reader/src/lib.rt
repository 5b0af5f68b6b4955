// A tray in one call.
#![tactic(auto)]

pub mod entries; // entries.rt: the checks, the loop, the entry point
pub mod rows; // rows.rt: rows as records
