// The measures of a block's grid.
#![tactic(auto)]

pub mod form; // form.rt: how wide a block's grid is: digits, cells, and the columns that fit into 80
