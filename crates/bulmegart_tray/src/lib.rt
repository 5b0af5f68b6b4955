// What the bench links of request (iv): a tray of blocks in one call. include/bulmegart.h says the same for C.
#![tactic(auto)]

pub mod trays; // trays.rt: the tray
