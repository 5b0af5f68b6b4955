// Text, numbers and bytes to a printer that the program hands down: its standard output, or its standard error.
// These functions promise nothing but to end: no contract can say what the operating system is handed. What could not be written is an error. The numbers that
// they hand on are std's, whose own contracts say which digits a number has.
ghost use Rattle.std.specs.Prelude.{◌≡◌, nat_abs};

use std::io;

pub fn text(out: &impl Print, s: &[u8]) -> io::Result<()> {
    out.write_all(s)
}

pub fn end_line(out: &impl Print) -> io::Result<()> {
    text(out, b"\n")
}

pub fn line(out: &impl Print, s: &[u8]) -> io::Result<()> {
    text(out, s)?;
    end_line(out)
}

pub fn decimal(out: &impl Print, n: u64) -> io::Result<()> {
    out.print(n)
}

pub fn decimal32(out: &impl Print, n: u32) -> io::Result<()> {
    decimal(out, n as u64)
}

pub fn count(out: &impl Print, n: usize) -> io::Result<()> {
    decimal(out, n as u64)
}

// The distance from 0; it fits even of the least i32.
pub fn magnitude(n: i32) -> u64
    ensures { result ≡ nat_abs n }
{
    u64::from(n.unsigned_abs())
}

pub fn signed(out: &impl Print, n: i32) -> io::Result<()> {
    if n < 0 {
        text(out, b"-")?;
    }
    decimal(out, magnitude(n))
}

pub fn flag(out: &impl Print, on: bool) -> io::Result<()> {
    if on { text(out, b"1") } else { text(out, b"0") }
}

// A space and a number.
pub fn spaced(out: &impl Print, n: u32) -> io::Result<()> {
    text(out, b" ")?;
    decimal32(out, n)
}

pub fn spaced_count(out: &impl Print, n: usize) -> io::Result<()> {
    text(out, b" ")?;
    count(out, n)
}

pub fn spaced_flag(out: &impl Print, on: bool) -> io::Result<()> {
    text(out, b" ")?;
    flag(out, on)
}

// The place of an entry of a list, `place:`; a space goes before the first entry, a comma before each other.
pub fn place(out: &impl Print, n: usize, first: bool) -> io::Result<()> {
    if first {
        text(out, b" ")?;
    } else {
        text(out, b",")?;
    }
    count(out, n)?;
    text(out, b":")
}

// Two hexadecimal digits.
pub fn hex(out: &impl Print, b: u8) -> io::Result<()> {
    print!(out; "{b:02x}")
}

pub fn hex_bytes(out: &impl Print, s: &[u8]) -> io::Result<()> {
    for &b in s {
        hex(out, b)?;
    }
    Ok(())
}
