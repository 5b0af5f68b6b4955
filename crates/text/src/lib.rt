// What programs share: text and numbers to a printer, lines of a reader, and what failed in words.
// No public function asks anything of its caller, so that a program over them is proved with few files or none.
#![tactic(auto)]

pub mod fail; // fail.rt: what failed, for standard error
pub mod lines; // lines.rt: the lines of a reader, as standard input
pub mod write; // write.rt: text, numbers and bytes to a printer, as standard output
