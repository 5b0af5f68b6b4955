// One step of a syntax by the arithmetic engine, from a payload.
#![tactic(auto)]

pub mod payload; // payload.rt: the steps by the arithmetic engine
