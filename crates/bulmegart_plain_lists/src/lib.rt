// What a bench with plain cameras links: the list's reader of crate hevc_plain_coding as a function that C and Rust call.
#![tactic(auto)]

pub mod plain; // plain.rt: a plain block from a bin list
