// What a payload gives at a place: a bit, a word, and what was supplied past the end.
#![tactic(auto)]

pub mod bits; // bits.rt: a bit, a word of four bytes, and what is beyond the end
