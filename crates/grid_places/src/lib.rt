// The places of a block as a grid.
#![tactic(auto)]

pub mod places; // places.rt: places of a block as a grid has them: how wide it is, and where a row and a column stand
