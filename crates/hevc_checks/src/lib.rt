// What is looked at before a block is read or written.
#![tactic(auto)]

pub mod checks; // checks.rt: 4 and 3 of what is handed in
