// A frame of the book from a drawing.
#![tactic(auto)]

pub mod press; // press.rt: the entry point: a drawing as a frame of the book
