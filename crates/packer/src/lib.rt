// Bins into a payload, by the arithmetic writer of H.265's informative text (9.3.5), for any syntax.
#![tactic(auto)]

pub mod list; // list.rt: a bin list, entry by entry
