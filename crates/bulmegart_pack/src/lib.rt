// What the bench links for packing: bin lists as payloads, as functions that C and Rust call.
// Each takes anything that it can be handed, and answers by document 01's number; include/bulmegart.h says the same for C.
#![tactic(auto)]

pub mod packs; // packs.rt: a block's list, and a scale's
pub mod trays; // trays.rt: the lists of a tray
pub mod h264; // h264.rt: an H.264 block's list
