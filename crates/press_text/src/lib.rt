// A drawing's text: its words, rows and values, and what is said of them.
#![tactic(auto)]

pub mod keys; // keys.rt: the lines that begin with a word
pub mod rows; // rows.rt: the lines with levels
pub mod values; // values.rt: the initial values of H.265
pub mod words; // words.rt: what is told
