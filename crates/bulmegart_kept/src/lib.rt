// A kept block changed, for C: a level set, all cleared, copied in, counted again.
#![tactic(auto)]

pub mod changes; // changes.rt: what changes a kept block
