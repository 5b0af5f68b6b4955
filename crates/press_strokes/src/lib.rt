// The strokes of a drawing that could be changed, and the first change that would do.
#![tactic(auto)]

pub mod search; // search.rt: the first level out of range, the first sub-block whose hidden sign disagrees, the first change that the writer takes
pub mod strokes; // strokes.rt: a level with one stroke more, less, or the other sign
