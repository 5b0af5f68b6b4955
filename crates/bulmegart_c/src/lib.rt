// What C and Rust link: tools/archive makes libbulmegart.a of this crate. Each exported function is the one of its name in a library bulmegart_.., called with
// what it is handed, and promises what that promises, in the same words; include/bulmegart.h says the same for C.
#![tactic(auto)]

pub mod version; // version.rt: which version the archive is of
pub mod contexts; // contexts.rt: initialisation of contexts
pub mod engine; // engine.rt: start and restart of the arithmetic engine
pub mod decode; // decode.rt: a decision and a terminate bin
pub mod align; // align.rt: alignment of range and position, and the rest of the payload
pub mod bypass; // bypass.rt: bypass bins and raw bits
pub mod readers; // readers.rt: the two block readers
pub mod writer; // writer.rt: the writer of bins
pub mod scales; // scales.rt: the cross-component scale out of a payload
pub mod scale_lists; // scale_lists.rt: the cross-component scale out of a bin list and as one
pub mod tray; // tray.rt: a tray of blocks in one call
pub mod reached; // reached.rt: the state that a call of the block reader reaches
pub mod pack; // pack.rt: bin lists as payloads
pub mod kept; // kept.rt: a kept block changed
pub mod summary; // summary.rt: reading into a kept block
pub mod morning_figures; // morning_figures.rt: the morning figures
pub mod plain; // plain.rt: a plain record from what is left to say
pub mod plain_reader; // plain_reader.rt: a plain block from a payload
pub mod plain_lists; // plain_lists.rt: a plain block from a bin list
pub mod plain_writer; // plain_writer.rt: a plain block as a bin list
pub mod h264; // h264.rt: H.264's block
pub mod book; // book.rt: the book of test pieces
pub mod press; // press.rt: the press
