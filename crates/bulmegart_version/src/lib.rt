// Which version the archive is of.
#![tactic(auto)]

pub mod version; // version.rt: the one number
