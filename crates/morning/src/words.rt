// Refusals in words: what the book's numbers mean.
use std::io;
use text::write;

// By number, as document 01 and the book give refusals; `show` has some of the words too, and no crate that both may know (crates.txt) has refusals.
pub fn reason(out: &impl Print, n: u32) -> io::Result<()> {
    match n {
        1 => write::text(out, b"payload under 2 bytes"),
        2 => write::text(out, b"payload over 16,777,216 bytes"),
        3 => write::text(out, b"impossible state"),
        4 => write::text(out, b"parameter out of its limits"),
        5 => write::text(out, b"starting offset 510 or 511"),
        6 => write::text(out, b"engine has ended"),
        7 => write::text(out, b"alignment wanted while the offset is 256 or more"),
        8 => write::text(out, b"level outside the coefficient range"),
        20 => write::text(out, b"line is not lower-case hexadecimal"),
        21 => write::text(out, b"line is not as long as it says"),
        22 => write::text(out, b"line is too long"),
        _ => write::text(out, b"another reason"),
    }
}
