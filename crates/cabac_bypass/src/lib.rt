// The entry points of the arithmetic engine of H.265 (CABAC) that answer bypass bins and raw bits. Each takes anything that it can be handed.
#![tactic(auto)]

pub mod bypass; // bypass.rt: bypass bins and raw bits, over payload and state
