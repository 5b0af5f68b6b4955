// Shows blocks to a person: frames of hexadecimal from standard input, a line each; of each the block or the refusal in words to standard output.
//
// A frame is 8 bytes for log2 size, luma (1) or chroma (0), scan, bit depth, QP, hiding (0 or 1), and the payload length as two bytes, high
// first; then an initial value for each context; then the payload of at most 4,096 bytes. Digits are lower case, two a byte, with nothing between them. Other
// options are off, the statistics 0. What stands behind the frame is not looked at.
//
// A frame of H.264 stands behind the word `h264` and a space: QP, the payload length as two bytes, high first, 40 pairs m, n as signed bytes (two's
// complement), the payload of at most 4,096 bytes.
#![tactic(auto)]

mod h264; // h264.rt: a frame of H.264
mod summary; // summary.rt: count, sum and map
mod words; // words.rt: refusals and findings in words

ghost use Rattle.std.specs.Prelude.{◌≤◌, IfOk};

use bins::places::BitPlace;
use bins::state::Engine;
use bins::tags::CONTEXTS;
use cabac_engine::engine::start;
use cabac_init::contexts::init_contexts;
use check::same;
use hevc_reader::entries::residual_coding;
use hevc_residual::answers::Found;
use hevc_residual::params::{Params, all_off};
use octet_scan::find;
use show_grid::grid;
use std::io;
use text::lines::{part, read_full};
use text::write;
use text_octets::octets::hex_bytes;

const MOST: usize = 4096;

// So much of standard input is looked at.
const MOST_READ: usize = 65536;

// Header, values and payload as they stand in the frame.
const HEADER_DIGITS: usize = 16;

const FRONT_DIGITS: usize = HEADER_DIGITS + 2 * CONTEXTS;

// Some bytes are spelled, all by hexadecimal digits; or the words of what is wrong.
fn spelled(digits: &[u8], out: &mut [u8], words: &'static [u8]) -> Result<(), &'static [u8]> {
    match hex_bytes(digits, out) {
        Some(_) => Ok(()),
        None => Err(words),
    }
}

// A text has so many digits, or the words of what is wrong.
fn enough(text: &[u8], digits: usize, words: &'static [u8]) -> Result<(), &'static [u8]> {
    if text.len() < digits {
        return Err(words);
    }
    Ok(())
}

// A luma or hiding byte above 1 is 4, as any size that there is none of.
fn params(header: &[u8; 8]) -> Params {
    let log2 = if (header[1] > 1) | (header[5] > 1) {
        0
    } else {
        u32::from(header[0])
    };
    all_off(
        log2,
        header[1] == 1,
        u32::from(header[2]),
        u32::from(header[3]),
        header[5] == 1,
    )
}

// The place of the payload's first bit, with an engine that has ended: a reader that is asked with it looks at all the rest and reads nothing.
fn ended() -> Engine {
    let at = BitPlace(0);
    Engine {
        range: 510,
        offset: 0,
        position: at,
        ended: true,
        past: 0,
    }
}

// 1 and 4 stand before the start's 5. Asked with an ended engine, 6 says that nothing else is wrong.
fn refused_before_start(
    payload: &[u8],
    contexts: &mut [u8; CONTEXTS],
    statistics: &mut [u8; 4],
    p: Params,
    block: &mut [i32; 1024],
) -> Option<u32> {
    match residual_coding(payload, ended(), contexts, statistics, p, block) {
        Ok(_) | Err(6) => None,
        Err(n) => Some(n),
    }
}

fn shown(
    out: &impl Print,
    found: Found,
    e: Engine,
    payload: &[u8],
    p: Params,
    block: &[i32; 1024],
) -> io::Result<()> {
    words::size(out, p.log2, p.luma)?;
    words::found(out, found)?;
    words::drawn(out, e, payload.len())?;
    summary::of(out, block, p.log2)?;
    grid::levels(out, block, p.log2, found.greatest)
}

fn read_from(
    out: &impl Print,
    payload: &[u8],
    e: Engine,
    contexts: &mut [u8; CONTEXTS],
    statistics: &mut [u8; 4],
    p: Params,
    block: &mut [i32; 1024],
) -> io::Result<()> {
    match residual_coding(payload, e, contexts, statistics, p, block) {
        Ok(b) => shown(out, b.found, b.state, payload, p, block),
        Err(n) => words::refused(out, n),
    }
}

fn read(
    out: &impl Print,
    header: &[u8; 8],
    values: &[u8; CONTEXTS],
    payload: &[u8],
) -> io::Result<()> {
    let mut contexts = [0u8; CONTEXTS];
    let mut statistics = [0u8; 4];
    let mut block = [0i32; 1024];
    let p = params(header);
    init_contexts(&mut contexts, &mut statistics, values, header[4]);
    if let Some(n) = refused_before_start(payload, &mut contexts, &mut statistics, p, &mut block) {
        return words::refused(out, n);
    }
    match start(payload) {
        Ok(e) => {
            read_from(
                out,
                payload,
                e,
                &mut contexts,
                &mut statistics,
                p,
                &mut block,
            )
        }
        Err(m) => words::refused(out, m),
    }
}

// The payload's length, of two bytes, and where its digits end, which stand behind so many; or the words of what is wrong.
fn payload_of(text: &[u8], front: usize, high: u8, low: u8) -> Result<(usize, usize), &'static [u8]>
    requires { front ≤ 65536 }
    ensures { IfOk result (λ r. r.0 ≤ 4096) }
{
    let length = 256 * usize::from(high) + usize::from(low);
    if MOST < length {
        return Err(b"bad input: the payload length is over 4096");
    }
    let end = front + 2 * length;
    enough(text, end, b"bad input: it ends before the payload does")?;
    Ok((length, end))
}

// The frame of HEVC at the front of a text, part by part, and the payload's length; or the words of what is wrong.
fn hevc_parts(
    text: &[u8],
    header: &mut [u8; 8],
    values: &mut [u8; CONTEXTS],
    bytes: &mut [u8; MOST],
) -> Result<usize, &'static [u8]> {
    enough(
        text,
        HEADER_DIGITS,
        b"bad input: it ends within the first 8 bytes of a frame",
    )?;
    spelled(
        part(text, 0, HEADER_DIGITS),
        header,
        b"bad input: the first 8 bytes are not lower-case hexadecimal",
    )?;
    let (length, end) = payload_of(text, FRONT_DIGITS, header[6], header[7])?;
    spelled(
        part(text, HEADER_DIGITS, FRONT_DIGITS),
        values,
        b"bad input: the initial values are not lower-case hexadecimal",
    )?;
    spelled(
        part(text, FRONT_DIGITS, end),
        bytes,
        b"bad input: the payload is not lower-case hexadecimal",
    )?;
    Ok(length)
}

// The frame of HEVC that stands at the front of the text.
fn hevc_frame(out: &impl Print, text: &[u8]) -> io::Result<()> {
    let mut header = [0u8; 8];
    let mut values = [0u8; CONTEXTS];
    let mut bytes = [0u8; MOST];
    match hevc_parts(text, &mut header, &mut values, &mut bytes) {
        Ok(length) => read(out, &header, &values, part(&bytes, 0, length)),
        Err(words) => write::line(out, words),
    }
}

// QP, length and pairs.
const OLD_FRONT: usize = 83;

const OLD_FRONT_DIGITS: usize = 2 * OLD_FRONT;

// The bytes of the frame of H.264 at the front of a text, and the payload's length; or the words of what is wrong.
fn old_parts(text: &[u8], bytes: &mut [u8; OLD_FRONT + MOST]) -> Result<usize, &'static [u8]>
    ensures { IfOk result (λ length. length ≤ 4096) }
{
    let mut front = [0u8; 3];
    enough(
        text,
        OLD_FRONT_DIGITS,
        b"bad input: it ends within QP, payload length and pairs",
    )?;
    spelled(
        part(text, 0, 6),
        &mut front,
        b"bad input: QP and payload length are not lower-case hexadecimal",
    )?;
    let (length, end) = payload_of(text, OLD_FRONT_DIGITS, front[1], front[2])?;
    spelled(
        part(text, 0, end),
        bytes,
        b"bad input: the pairs or the payload are not lower-case hexadecimal",
    )?;
    Ok(length)
}

// The frame of H.264 that stands at the front of the text.
fn old_frame(out: &impl Print, text: &[u8]) -> io::Result<()> {
    let mut bytes = [0u8; OLD_FRONT + MOST];
    match old_parts(text, &mut bytes) {
        Ok(length) => h264::frame(out, part(&bytes, 0, OLD_FRONT + length), length),
        Err(words) => write::line(out, words),
    }
}

// Whether the text begins with the word.
fn is_h264(text: &[u8]) -> bool {
    same(part(text, 0, 5), b"h264 ")
}

fn frame(out: &impl Print, text: &[u8]) -> io::Result<()> {
    if is_h264(text) {
        old_frame(out, part(text, 5, text.len()))
    } else {
        hevc_frame(out, text)
    }
}

// An empty line between two frames.
fn next_frame(out: &impl Print, text: &[u8], from: usize) -> io::Result<()> {
    if 0 < from {
        write::end_line(out)?;
    }
    frame(out, text)
}

// A frame a line; no line at all is a frame that ends too early.
fn frames(out: &impl Print, text: &[u8]) -> io::Result<()> {
    if text.len() == 0 {
        frame(out, text)?;
    }
    let mut from: usize = 0;
    while from < text.len() {
        let to = find(text, from, text.len(), b'\n');
        next_frame(out, part(text, from, to), from)?;
        from = to + 1;
    }
    Ok(())
}

fn main(rt: HostRuntime) -> io::Result<()> {
    let mut buffer = [0u8; MOST_READ];
    let n = read_full(&mut rt.stdin(), &mut buffer)?;
    frames(&rt.stdout(), part(&buffer, 0, n))
}
