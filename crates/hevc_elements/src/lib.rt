// The syntax elements of the residual (H.265 7.3.8.11), one function for each, from a bin list or a payload.
#![tactic(auto)]

pub mod shapes; // shapes.rt: the small shapes that elements are made of
