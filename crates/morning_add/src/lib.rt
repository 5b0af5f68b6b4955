// What a line of a book adds to the figures of its block's size: the definition of a book's figures, its laws, and the code of one line.
#![tactic(auto)]

pub mod begin; // begin.rt: before anything is added
pub mod event; // event.rt: what a line adds
pub mod adding; // adding.rt: what is added to the figures of a size, and of all four
