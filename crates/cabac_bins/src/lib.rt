// The entry points of the arithmetic engine of H.265 (CABAC) that answer a bin. Each takes anything that it can be handed.
#![tactic(auto)]

pub mod decode; // decode.rt: over payload and state
