// What is looked at before a block is read out of a payload.
#![tactic(auto)]

pub mod checks; // checks.rt: the whole order
