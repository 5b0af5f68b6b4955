// A decision on a lent context.
#![tactic(auto)]

pub mod context; // context.rt: the context, and the decision that changes it
