// What salvage says: a line as the book and the report have it, and how many there were.
#![tactic(auto)]

pub mod words; // words.rt: a line as the book and the report have it
pub mod tally; // tally.rt: counting the lines, and the words for it
