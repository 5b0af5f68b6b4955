// Refusals and findings in words.
use bins::state::Engine;
use hevc_residual::answers::Found;
use hevc_residual::params::Rdpcm;
use std::io;
use text::write;

// By number, as document 01 gives refusals; `morning` has some of the words too, and no crate that both may know (crates.txt) has refusals.
fn reason(out: &impl Print, n: u32) -> io::Result<()> {
    match n {
        1 => write::text(out, b"payload under 2 bytes"),
        2 => write::text(out, b"payload over 16,777,216 bytes"),
        3 => write::text(out, b"impossible state"),
        4 => write::text(out, b"parameter out of its limits"),
        5 => write::text(out, b"starting offset 510 or 511"),
        6 => write::text(out, b"engine has ended"),
        7 => write::text(out, b"alignment wanted while the offset is 256 or more"),
        8 => write::text(out, b"level outside the coefficient range"),
        9 => write::text(out, b"writer: all levels zero"),
        10 => write::text(out, b"writer: skip or RDPCM set where it isn't coded"),
        11 => write::text(out, b"writer: a hidden sign disagrees with its parity"),
        12 => write::text(out, b"writer: list longer than the room"),
        13 => write::text(
            out,
            b"bin reader: list ends early, has another tag, or has bins left over",
        ),
        _ => write::text(out, b"another reason"),
    }
}

pub fn refused(out: &impl Print, n: u32) -> io::Result<()> {
    write::text(out, b"refused, number ")?;
    write::decimal32(out, n)?;
    write::text(out, b": ")?;
    reason(out, n)?;
    write::end_line(out)
}

fn yes_or_no(out: &impl Print, on: bool) -> io::Result<()> {
    if on {
        write::line(out, b"yes")
    } else {
        write::line(out, b"no")
    }
}

fn named(out: &impl Print, name: &[u8], n: u32) -> io::Result<()> {
    write::text(out, name)?;
    write::decimal32(out, n)?;
    write::end_line(out)
}

fn side(log2: u32) -> u32 {
    match log2 {
        2 => 4,
        3 => 8,
        4 => 16,
        _ => 32,
    }
}

pub fn size(out: &impl Print, log2: u32, luma: bool) -> io::Result<()> {
    write::text(out, b"accepted: ")?;
    write::decimal32(out, side(log2))?;
    write::text(out, b" by ")?;
    write::decimal32(out, side(log2))?;
    if luma {
        write::line(out, b", luma")
    } else {
        write::line(out, b", chroma")
    }
}

// Words of this program alone: a Display would stand in hevc_residual, which prints nothing.
fn rdpcm(out: &impl Print, r: Rdpcm) -> io::Result<()> {
    match r {
        Rdpcm::None => write::line(out, b"none"),
        Rdpcm::Horizontal => write::line(out, b"horizontal"),
        Rdpcm::Vertical => write::line(out, b"vertical"),
    }
}

// An extent, and what it says.
fn reach(out: &impl Print, name: &[u8], n: u32, beyond: &[u8]) -> io::Result<()> {
    write::text(out, name)?;
    write::decimal32(out, n)?;
    write::text(out, beyond)?;
    write::decimal32(out, n)?;
    write::line(out, b" are zero")
}

pub fn found(out: &impl Print, f: Found) -> io::Result<()> {
    write::text(out, b"transform skip      ")?;
    yes_or_no(out, f.skip)?;
    write::text(out, b"explicit RDPCM      ")?;
    let direction = f.rdpcm;
    rdpcm(out, direction)?;
    reach(out, b"column extent       ", f.column, b", columns beyond ")?;
    reach(out, b"row extent          ", f.row, b", rows beyond ")?;
    greatest(out, f.greatest)
}

pub fn greatest(out: &impl Print, n: u32) -> io::Result<()> {
    named(out, b"greatest magnitude  ", n)
}

// Whole bytes that hold so many bits.
fn bytes_of(bits: u32) -> u32 {
    if bits % 8 == 0 {
        return bits / 8;
    }
    bits / 8 + 1
}

fn missing(out: &impl Print, bytes: u32) -> io::Result<()> {
    if bytes == 0 {
        return write::line(out, b"nothing is missing");
    }
    write::text(out, b"about ")?;
    write::decimal32(out, bytes)?;
    if bytes == 1 {
        write::line(out, b" byte is missing")
    } else {
        write::line(out, b" bytes are missing")
    }
}

// One block draws less than the 65,535 bits at which a total stops.
fn past_the_end(out: &impl Print, bits: u32) -> io::Result<()> {
    write::decimal32(out, bits)?;
    if bits == 1 {
        write::text(out, b" bit past the end: ")?;
    } else {
        write::text(out, b" bits past the end: ")?;
    }
    missing(out, bytes_of(bits))
}

// Bits of the payload, of so many bytes; and those past its end.
pub fn drawn(out: &impl Print, e: Engine, bytes: usize) -> io::Result<()> {
    write::text(out, b"bits drawn          ")?;
    write::count(out, e.position.0)?;
    write::text(out, b", of a payload of ")?;
    write::count(out, bytes)?;
    write::line(out, b" bytes")?;
    past_the_end(out, e.past)
}
