// The checks around reading into a block with its summary.
#![tactic(auto)]

pub mod checks; // checks.rt: what is refused before a block is read into a kept one, and what becomes of the summary behind it
