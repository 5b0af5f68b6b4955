// What failed, for standard error.
use crate::write;
use std::alloc::Global;
use std::io;

// The system's words for an error. std writes its number behind them.
fn words_alone(words: &str) -> &str {
    match words.split_once(" (os error ") {
        Some((front, _)) => front,
        None => words,
    }
}

// A line: what failed, as the caller names it, a colon and the error's words.
pub fn fail(err: &impl Print, alloc: Global, what: &[u8], e: &io::Error) -> io::Result<()> {
    let words = format!(in alloc; "{e}")?;
    write::text(err, what)?;
    write::text(err, b": ")?;
    write::line(err, words_alone(words.as_str()).as_bytes())
}
