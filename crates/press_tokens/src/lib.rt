// What stands between blanks in a drawing's text.
#![tactic(auto)]

pub mod tokens; // tokens.rt: what stands between blanks
