// What a frame of the book is made of, for a drawing: the definition of pressing, its laws, and the parts of the frame.
#![tactic(auto)]

pub mod press; // press.rt: the parts of a frame that a drawing becomes
