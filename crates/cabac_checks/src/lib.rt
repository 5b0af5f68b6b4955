// What every entry point over a payload begins with.
#![tactic(auto)]

pub mod checks; // checks.rt: what is refused of payload and state, in document 01's order
