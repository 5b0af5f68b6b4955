// A book of test pieces as lines: the line that is being read, and the form that a frame's line keeps. What a program writes of a book is said for
// the whole text; each function's promise is one step of that, so no cut of the text into pieces matters (specs/LineLaws.antt, cut).
#![tactic(auto)]

pub mod form; // form.rt: which number a line is refused by
pub mod pending; // pending.rt: the line that is being read
