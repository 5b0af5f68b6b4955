// What any reading of a block can come to, from any source: a crate of laws only, in specs.
#![tactic(auto)]
