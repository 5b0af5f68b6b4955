// The shapes of any syntax into a lent room: what is written is told by what is handed in.
#![tactic(auto)]

pub mod plain; // plain.rt: the shapes of any syntax
