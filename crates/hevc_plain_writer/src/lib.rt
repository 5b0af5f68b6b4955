// Plain cameras (request (xi)): the bin writer for blocks that use none of the range extensions.
#![tactic(auto)]

pub mod entries; // entries.rt: the entry point, over the full one
