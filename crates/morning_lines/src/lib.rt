// What a line of a book adds to the figures, read out of it.
#![tactic(auto)]

pub mod event; // event.rt: what a line adds to the figures: the block of the frame that it spells, or the number that it is refused by
