// What the bench links begins here: a state and parameters as C has them. The exported functions stand in the crates
// whose names begin with this one's; each takes anything that it can be handed and answers by document 01's number; include/bulmegart.h says the same for C.
#![tactic(auto)]

pub mod records; // records.rt: state and parameters as C has them
