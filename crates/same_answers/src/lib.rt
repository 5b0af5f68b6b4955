// Whether two answers, and what stands behind them, are the same.
#![tactic(auto)]

pub mod alike; // alike.rt: whether two readings leave the same behind
