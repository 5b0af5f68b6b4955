// The entry points of the arithmetic engine of H.265 (CABAC) that start and restart it. Each takes anything that it can be handed.
#![tactic(auto)]

pub mod engine; // engine.rt: over payload and state
