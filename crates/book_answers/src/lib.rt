// The answers to a book of test pieces: a line for each line, `N ok GREATEST PAST` or `N no NUMBER`. The definitions, their laws, and the words and
// counts of an answer; crate book_answering feeds a book piece by piece (specs/Gave.antt, run-whole: no cut matters).
#![tactic(auto)]

pub mod answer; // answer.rt: the answer to a line as words
pub mod tally; // tally.rt: how often each number was given
pub mod answering; // answering.rt: what is kept between the pieces of a book
