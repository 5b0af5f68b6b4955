// Where two payloads begin to differ (document 02, request (xii)), for any syntax.
#![tactic(auto)]

pub mod payloads; // payloads.rt: two payloads held against each other
