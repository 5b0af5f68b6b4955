// The salvage of a spoiled book: every line that keeps the form is copied, upper-case digits turned to lower case; what still fails is dropped; a report
// says what became of each line. Crate spoiled_book feeds it piece by piece.
#![tactic(auto)]

pub mod fate; // fate.rt: what becomes of a line
pub mod tally; // tally.rt: how many lines were kept, lowered and dropped
