// A book of test pieces answered as it comes, in pieces of any length (book_answers/specs/Gave.antt, run-whole: no cut matters).
#![tactic(auto)]

pub mod answering; // answering.rt: a book, piece after piece, and its end
