// The records of trays and of what is packed.
#![tactic(auto)]

pub mod packs; // packs.rt: the arithmetic writer
pub mod records; // records.rt: the records of a tray
pub mod trays; // trays.rt: trays
