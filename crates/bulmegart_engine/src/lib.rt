// What the bench links: the arithmetic engine's start and restart, and the answers of all its calls.
#![tactic(auto)]

pub mod engine;
