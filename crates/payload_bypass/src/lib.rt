// Bypass bins out of a payload.
#![tactic(auto)]

pub mod bypass; // bypass.rt: bypass bins out of a payload (H.265 9.3.4.3.4)
