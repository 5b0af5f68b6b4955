// The figures of a book of test pieces, for each of four sizes. The book comes in pieces of any length (morning_add/specs/SumLaws.antt, run-whole: no cut matters).
#![tactic(auto)]

pub mod feeding; // feeding.rt: piece after piece, and the end
