// What a bench with plain cameras links: the bin writer of crate hevc_plain_writer as a function that C and Rust call.
#![tactic(auto)]

pub mod plain; // plain.rt: a plain block as a bin list
