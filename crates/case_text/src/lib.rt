// Records of the program cases as text: what a record hands in, and what it is answered, held against the text that is wanted.
#![tactic(auto)]

pub mod answer; // answer.rt: the text of an answer, held against the wanted text
pub mod given; // given.rt: what a record hands in
pub mod record; // record.rt: the fields of a record
