// What the bench links: bypass bins and raw bits.
#![tactic(auto)]

pub mod bypass; // bypass.rt: bypass bins and raw bits, for C
