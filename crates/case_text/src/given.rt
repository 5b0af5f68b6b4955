// What a record hands in. A value that its key cannot have is missing, and the line is no record.
use crate::record::value;
use bins::places::BitPlace;
use bins::state::Engine;
use bins::tags::CONTEXTS;
use cabac::answers::State;
use cabac_engine::engine::start;
use case_lent::lent::LIST;
use hevc_residual::params::{Params, Rdpcm};
use octet_scan::find;
use text::lines::part;
use text_fields::fields::decimal;
use text_octets::octets::hex_bytes;

// How many places are lent at most: more than the largest block has, so that places behind it are seen.
pub const PLACES: usize = 1032;

// How many are lent to a tray at most.
pub const LEVELS: usize = 4864;

// The numbers of a record.
#[derive(Clone, Copy)]
pub struct Numbers {
    pub count: u32,
    pub context: u8,
    pub component: u32,
    // none where it is not given
    pub quantiser: Option<u8>,
    pub value: u8,
    // how many bytes and how many places are lent
    pub room: usize,
    pub places: usize,
    pub skip: bool,
}

pub fn number(s: &[u8]) -> Option<u32> {
    u32::try_from(decimal(s)?).ok()
}

// The number of a key, or what it is where it is not given.
fn number_or(s: &[u8], key: &[u8], usual: u32) -> Option<u32> {
    match value(s, key) {
        b"" => Some(usual),
        text => number(text),
    }
}

fn octet_or(s: &[u8], key: &[u8], usual: u32) -> Option<u8> {
    u8::try_from(number_or(s, key, usual)?).ok()
}

// So many are lent where it is not given, and no more can be.
fn lent_or(s: &[u8], key: &[u8], most: usize) -> Option<usize> {
    match value(s, key) {
        b"" => Some(most),
        text => usize::try_from(number(text)?).ok().filter(|n| *n <= most),
    }
}

fn quantiser(s: &[u8]) -> Option<Option<u8>> {
    match s {
        b"" => Some(None),
        text => Some(Some(u8::try_from(number(text)?).ok()?)),
    }
}

fn flag(n: u32) -> Option<bool> {
    match n {
        0 => Some(false),
        1 => Some(true),
        _ => None,
    }
}

impl Numbers {
    // Those of a record to which so many places can be lent.
    pub fn of(s: &[u8], places: usize) -> Option<Numbers> {
        Some(Numbers {
            count: number_or(s, b"count", 0)?,
            context: octet_or(s, b"context", 0)?,
            component: number_or(s, b"component", 0)?,
            quantiser: quantiser(value(s, b"q"))?,
            value: octet_or(s, b"value", 0)?,
            room: lent_or(s, b"room", LIST)?,
            places: lent_or(s, b"places", places)?,
            skip: flag(number_or(s, b"skip", 0)?)?,
        })
    }
}

// So many numbers of 32 bits, parted by commas, and no more.
pub fn row<const N: usize>(s: &[u8]) -> Option<[u32; N]> {
    let mut row = [0u32; N];
    let mut texts = s.split(|b| *b == b',');
    for n in row.iter_mut() {
        *n = number(texts.next()?)?;
    }
    match texts.next() {
        Some(_) => None,
        None => Some(row),
    }
}

// The state that is handed in: where it is not given that of a start on the payload, which may refuse.
pub fn state(s: &[u8], bytes: &[u8]) -> Option<State> {
    if s.is_empty() {
        return Some(start(bytes));
    }
    let [range, offset, position, ended, past] = row::<5>(s)?;
    Some(Ok(Engine {
        range,
        offset,
        position: BitPlace(position as usize),
        ended: flag(ended)?,
        past,
    }))
}

// All but log2, scan and depth are 0 or 1.
fn params_of(n: [u32; 14]) -> Option<Params> {
    Some(Params {
        log2: n[0],
        luma: flag(n[1])?,
        scan: n[2],
        depth: n[13],
        hiding: flag(n[3])?,
        skip_allowed: flag(n[4])?,
        lossless: flag(n[5])?,
        persistent: flag(n[6])?,
        skip_context: flag(n[7])?,
        explicit_rdpcm: flag(n[8])?,
        implicit_rdpcm: flag(n[9])?,
        inter: flag(n[10])?,
        aligning: flag(n[11])?,
        extended: flag(n[12])?,
    })
}

// The parameters; where they are not given those of a 4x4 block of luma in scan 0 at depth 8, with all options off.
pub fn params(s: &[u8]) -> Option<Params> {
    match s {
        b"" => params_of([2, 1, 0, 0, 0, 0, 0, 0, 0, 0, 0, 0, 0, 8]),
        text => params_of(row(text)?),
    }
}

// As many bytes as are lent; where they are not given each is the usual one.
pub fn octets<const N: usize>(s: &[u8], usual: u8) -> Option<[u8; N]> {
    let mut octets = [usual; N];
    if s.is_empty() {
        return Some(octets);
    }
    match hex_bytes(s, &mut octets) {
        Some(n) if n == N => Some(octets),
        _ => None,
    }
}

// The contexts and the statistics that are lent to a reader or a writer.
#[derive(Clone, Copy, PartialEq, Eq)]
pub struct Lent {
    pub contexts: [u8; CONTEXTS],
    pub stats: [u8; 4],
}

impl Lent {
    // Those of a record.
    pub fn of(s: &[u8]) -> Option<Lent> {
        Some(Lent {
            contexts: octets(value(s, b"ctx"), 64)?,
            stats: octets(value(s, b"stats"), 0)?,
        })
    }
}

// No direction where it is not given.
pub fn direction(s: &[u8]) -> Option<Rdpcm> {
    match s {
        b"" | b"-1" => Some(Rdpcm::None),
        b"0" => Some(Rdpcm::Horizontal),
        b"1" => Some(Rdpcm::Vertical),
        _ => None,
    }
}

// A number of 32 bits, with a sign before it where it is below 0.
pub fn integer(s: &[u8]) -> Option<i32> {
    match s.strip_prefix(b"-") {
        Some(magnitude) => below(number(magnitude)?),
        None => i32::try_from(number(s)?).ok(),
    }
}

// No zero has a sign.
fn below(magnitude: u32) -> Option<i32> {
    match magnitude {
        0 => None,
        n => i32::try_from(-i64::from(n)).ok(),
    }
}

// place:level; no place has two, and none is 0.
fn put_level(s: &[u8], block: &mut [i32; PLACES]) -> Option<()> {
    let colon = find(s, 0, s.len(), b':');
    let place = number(part(s, 0, colon))? as usize;
    let level = integer(part(s, colon + 1, s.len()))?;
    if PLACES <= place {
        return None;
    }
    if (block[place] != 0) | (level == 0) {
        return None;
    }
    block[place] = level;
    Some(())
}

// The levels in a block of zeros; a dash stands for none.
pub fn levels(s: &[u8]) -> Option<[i32; PLACES]> {
    let mut block = [0i32; PLACES];
    if s == b"-".as_slice() {
        return Some(block);
    }
    for level in s.split(|b| *b == b',') {
        put_level(level, &mut block)?;
    }
    Some(block)
}
