// What is plain, looked at before a plain block; a record of just that.
#![tactic(auto)]

pub mod checks; // checks.rt: 24, and the checks before a plain block
pub mod record; // record.rt: a plain record of parameters, from what is left to say
