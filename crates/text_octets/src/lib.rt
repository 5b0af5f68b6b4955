// The octets that a field of a line spells.
#![tactic(auto)]

pub mod octets; // octets.rt: octets that a field spells by pairs of hexadecimal digits
