// The lines that begin with a word: what is settled before the block.
ghost use Rattle.std.specs.Prelude.{◌≤◌};

use crate::words::{BadInput, Why};
use bins::tags::CONTEXTS;
use check::same;
use press_tokens::tokens::{end_of, start_of};
use text::lines::part;
use text_fields::fields::decimal;
use text_octets::octets::hex_bytes;

// What a line that was taken says: a word of the drawing, or that the block stands as `show` prints it.
#[derive(Clone, Copy)]
pub enum Taken {
    Word,
    Shown,
}

// A number between two.
fn within(value: &[u8], least: u64, most: u64) -> Option<u8>
    requires { most ≤ 255 }
{
    match decimal(value) {
        Some(n) => {
            if n < least {
                return None;
            }
            if most < n {
                return None;
            }
            Some(n as u8)
        }
        None => None,
    }
}

fn log2_of(value: &[u8]) -> Option<u8> {
    match within(value, 4, 32)? {
        4 => Some(2),
        8 => Some(3),
        16 => Some(4),
        32 => Some(5),
        _ => None,
    }
}

fn scan_of(value: &[u8]) -> Option<u8> {
    if same(value, b"diagonal") {
        return Some(0);
    }
    if same(value, b"rows") {
        return Some(1);
    }
    if same(value, b"columns") {
        return Some(2);
    }
    None
}

// A byte of the header, where its word has a value.
fn set(byte: &mut u8, value: Option<u8>, bad: BadInput) -> Result<(), BadInput> {
    *byte = value.ok_or(bad)?;
    Ok(())
}

// The values of all contexts.
fn initial(value: &[u8], at: usize, values: &mut [u8; CONTEXTS]) -> Result<(), BadInput> {
    match hex_bytes(value, values) {
        Some(CONTEXTS) => Ok(()),
        _ => Err(BadInput {
            at,
            why: Why::Values,
        }),
    }
}

// A word with a value behind it, at a place of the line.
fn with_value(
    word: &[u8],
    value: &[u8],
    first: usize,
    at: usize,
    head: &mut [u8; 6],
    values: &mut [u8; CONTEXTS],
) -> Result<(), BadInput> {
    if same(word, b"size") {
        return set(
            &mut head[0],
            log2_of(value),
            BadInput { at, why: Why::Size },
        );
    }
    if same(word, b"scan") {
        return set(
            &mut head[2],
            scan_of(value),
            BadInput { at, why: Why::Scan },
        );
    }
    if same(word, b"depth") {
        return set(
            &mut head[3],
            within(value, 8, 16),
            BadInput {
                at,
                why: Why::Depth,
            },
        );
    }
    if same(word, b"qp") {
        return set(
            &mut head[4],
            within(value, 0, 51),
            BadInput { at, why: Why::Qp },
        );
    }
    if same(word, b"values") {
        return initial(value, at, values);
    }
    Err(BadInput {
        at: first,
        why: Why::Word,
    })
}

// A word that stands alone, by the byte of the header that it sets.
fn alone(word: &[u8], first: usize, head: &mut [u8; 6]) -> Result<Taken, BadInput> {
    if same(word, b"luma") {
        head[1] = 1;
        return Ok(Taken::Word);
    }
    if same(word, b"chroma") {
        head[1] = 0;
        return Ok(Taken::Word);
    }
    if same(word, b"hiding") {
        head[5] = 1;
        return Ok(Taken::Word);
    }
    if same(word, b"shown") {
        return Ok(Taken::Shown);
    }
    Err(BadInput {
        at: first,
        why: Why::Word,
    })
}

fn stands_alone(word: &[u8]) -> bool {
    same(word, b"luma") | same(word, b"chroma") | same(word, b"hiding") | same(word, b"shown")
}

pub fn key(s: &[u8], head: &mut [u8; 6], values: &mut [u8; CONTEXTS]) -> Result<Taken, BadInput> {
    let a = start_of(s, 0, false);
    let b = end_of(s, a, false);
    let c = start_of(s, b, false);
    let word = part(s, a, b);
    if stands_alone(word) {
        if c < s.len() {
            return Err(BadInput {
                at: c,
                why: Why::Behind,
            });
        }
        return alone(word, a, head);
    }
    let d = end_of(s, c, false);
    let e = start_of(s, d, false);
    if e < s.len() {
        return Err(BadInput {
            at: e,
            why: Why::Behind,
        });
    }
    with_value(word, part(s, c, d), a, c, head, values)?;
    Ok(Taken::Word)
}
