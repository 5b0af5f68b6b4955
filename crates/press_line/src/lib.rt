// A pressed frame as a line of the book, and what the book answers: a crate of laws only, in specs.
#![tactic(auto)]
