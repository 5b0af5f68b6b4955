// Memory that a record of the program cases has lent to a call.
#![tactic(auto)]

pub mod lent; // lent.rt: memory that is lent to a call
