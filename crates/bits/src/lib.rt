// The fetch: bits of a payload, several at once.
#![tactic(auto)]

pub mod fetch; // fetch.rt: bits at a place, with what was supplied past the end
