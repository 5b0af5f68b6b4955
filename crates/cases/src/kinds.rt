// Which record has which keys, and is answered by which function. A kind that is added is a rule, a word and a line here, and a function.
use crate::{scales, slices, values};
use bins::state::Engine;
use cabac_engine::engine::start;
use case_blocks::coder::Coder;
use case_blocks::engine::Entry;
use case_blocks::{blocks, engine, writes};
use case_h264::h264;
use case_lent::lent::LIST;
use case_text::answer::{Answer, Fault};
use case_text::given;
use case_text::given::{LEVELS, Numbers, PLACES};
use case_text::record::{first, is_by, value};
use case_trays::{packs, trays};
use std::io;
use text::lines::part;
use text_octets::octets::hex_bytes;

// Those that go on from a state in a payload.
#[derive(Clone, Copy, PartialEq, Eq)]
enum Reader {
    Engine(Entry),
    Block(Coder),
    Cross,
    Slice,
    Tray,
    H264,
}

#[derive(Clone, Copy, PartialEq, Eq)]
enum Kind {
    Start,
    From(Reader),
    List(Coder),
    Write(Coder),
    CrossList,
    CrossWrite,
    Init,
    InitValue,
    Pack,
    PackScale,
    PackTray,
    H264List,
    H264Write,
    H264Init,
}

fn reader_of(word: &[u8]) -> Option<Reader> {
    match word {
        b"decision" => Some(Reader::Engine(Entry::Decision)),
        b"bypass" => Some(Reader::Engine(Entry::Bypass)),
        b"single" => Some(Reader::Engine(Entry::Single)),
        b"raw" => Some(Reader::Engine(Entry::Raw)),
        b"terminate" => Some(Reader::Engine(Entry::Terminate)),
        b"align" => Some(Reader::Engine(Entry::Align)),
        b"restart" => Some(Reader::Engine(Entry::Restart)),
        b"alignbypass" => Some(Reader::Engine(Entry::AlignBypass)),
        b"block" => Some(Reader::Block(Coder::Full)),
        b"plainblock" => Some(Reader::Block(Coder::Plain)),
        b"cross" => Some(Reader::Cross),
        b"slice" => Some(Reader::Slice),
        b"tray" => Some(Reader::Tray),
        b"h264" => Some(Reader::H264),
        _ => None,
    }
}

fn kind_of(word: &[u8]) -> Option<Kind> {
    match word {
        b"start" => Some(Kind::Start),
        b"list" => Some(Kind::List(Coder::Full)),
        b"plainlist" => Some(Kind::List(Coder::Plain)),
        b"write" => Some(Kind::Write(Coder::Full)),
        b"plainwrite" => Some(Kind::Write(Coder::Plain)),
        b"crosslist" => Some(Kind::CrossList),
        b"crosswrite" => Some(Kind::CrossWrite),
        b"init" => Some(Kind::Init),
        b"initvalue" => Some(Kind::InitValue),
        b"pack" => Some(Kind::Pack),
        b"packscale" => Some(Kind::PackScale),
        b"packtray" => Some(Kind::PackTray),
        b"h264list" => Some(Kind::H264List),
        b"h264write" => Some(Kind::H264Write),
        b"h264init" => Some(Kind::H264Init),
        _ => reader_of(word).map(Kind::From),
    }
}

// Records of requests that have not landed.
pub fn is_later(line: &[u8]) -> bool {
    matches!(first(line), b"kept" | b"figures" | b"pair")
}

// The keys of each kind; those behind a ? may be missing.
pub fn has_keys(line: &[u8]) -> bool {
    is_by(
        b"start payload
decision payload context ?state
bypass payload count ?state
single payload ?state
raw payload count ?state
terminate payload ?state
align payload ?state
restart payload ?state
alignbypass payload ?state
block payload ?state ?p ?ctx ?stats ?places
plainblock payload ?state ?p ?ctx ?stats ?places
tray records payload ?state ?ctx ?stats ?places
h264 payload ?state ?ctx ?places
cross component payload ?state ?ctx
slice payload contexts ops ?state
list list ?p ?stats ?places
list list1 ?p ?stats ?places
write levels ?skip ?rdpcm ?p ?stats ?room ?places
plainlist list ?p ?stats ?places
plainwrite levels ?skip ?rdpcm ?p ?stats ?room ?places
pack list ?p ?ctx ?stats ?room
pack list1 ?p ?ctx ?stats ?room
packscale component list ?ctx ?room
packtray records list ?ctx ?stats ?room
h264list list ?places
h264write levels ?places ?room
h264init q pairs
crosslist component list
crosswrite component scale ?room
init values q
initvalue value ?q",
        line,
    )
}

// An entry of document 01's form of one byte as two, the low one first: 240, 241 and 242 are 260, 261 and 262.
fn low(e: u8) -> u8 {
    if e < 240 { e } else { e - 236 }
}

fn high(e: u8) -> u8 {
    if e < 240 { 0 } else { 1 }
}

// The first n bytes, entries of one byte each, as entries of two; answers how many bytes they are.
fn widened(bytes: &mut [u8; LIST], n: usize) -> Option<usize> {
    if 36864 < n {
        return None;
    }
    for i in (0..n).rev() {
        let e = bytes[i];
        bytes[2 * i] = low(e);
        bytes[2 * i + 1] = high(e);
    }
    Some(2 * n)
}

// The bytes that a record is about: it has one of these keys, or none. A list of document 01's form is widened.
fn taken(s: &[u8], bytes: &mut [u8; LIST]) -> Option<usize> {
    let narrow = value(s, b"list1");
    if !narrow.is_empty() {
        let n = hex_bytes(narrow, bytes)?;
        return widened(bytes, n);
    }
    let payload = value(s, b"payload");
    if !payload.is_empty() {
        return hex_bytes(payload, bytes);
    }
    let list = value(s, b"list");
    if !list.is_empty() {
        return hex_bytes(list, bytes);
    }
    hex_bytes(value(s, b"values"), bytes)
}

fn from_state(
    a: &mut Answer<'_, impl Print>,
    reader: Reader,
    s: &[u8],
    bytes: &[u8],
    e: Engine,
    n: &Numbers,
) -> Result<(), Fault> {
    match reader {
        Reader::Engine(entry) => {
            engine::answered(a, entry, bytes, e, n)?;
            Ok(())
        }
        Reader::Block(coder) => blocks::block(a, s, coder, bytes, e, n.places),
        Reader::Cross => scales::payload(a, s, bytes, e, n.component),
        Reader::Slice => slices::slice(a, s, bytes, e),
        Reader::Tray => trays::tray(a, s, bytes, e, n.places),
        Reader::H264 => h264::payload(a, s, bytes, e, n.places),
    }
}

fn of_payload(
    a: &mut Answer<'_, impl Print>,
    reader: Reader,
    s: &[u8],
    bytes: &[u8],
    n: &Numbers,
) -> Result<(), Fault> {
    match given::state(value(s, b"state"), bytes).ok_or(Fault::NoRecord)? {
        Ok(e) => from_state(a, reader, s, bytes, e, n),
        Err(m) => {
            a.refusal(m)?;
            a.text(b" at=start")?;
            Ok(())
        }
    }
}

fn answered(
    a: &mut Answer<'_, impl Print>,
    kind: Kind,
    s: &[u8],
    bytes: &[u8],
    n: &Numbers,
) -> Result<(), Fault> {
    let q = n.quantiser.unwrap_or(0);
    match kind {
        Kind::Start => said(engine::ready(a, start(bytes))),
        Kind::From(reader) => of_payload(a, reader, s, bytes, n),
        Kind::List(coder) => blocks::list(a, s, coder, bytes, n.places),
        Kind::Write(coder) => writes::write(a, s, coder, n),
        Kind::CrossList => said(scales::list(a, bytes, n.component)),
        Kind::CrossWrite => scales::write(a, s, n.component, n.room),
        Kind::Init => said(values::contexts(a, bytes, q)),
        Kind::InitValue => said(values::value(a, n.value, n.quantiser)),
        Kind::Pack => packs::pack(a, s, bytes, n.room),
        Kind::PackScale => packs::scale(a, s, bytes, n.component, n.room),
        Kind::PackTray => packs::tray(a, s, bytes, n.room),
        Kind::H264List => said(h264::list(a, bytes, n.places)),
        Kind::H264Write => h264::write(a, s, n.room, n.places),
        Kind::H264Init => h264::contexts(a, s, q),
    }
}

// An answer to a record that hands in no more than its numbers and bytes.
fn said(r: io::Result<()>) -> Result<(), Fault> {
    r?;
    Ok(())
}

// How many places can be lent.
fn lendable(kind: Kind) -> usize {
    if kind == Kind::From(Reader::Tray) {
        LEVELS
    } else {
        PLACES
    }
}

// The answer to a record.
pub fn answer(
    a: &mut Answer<'_, impl Print>,
    s: &[u8],
    bytes: &mut [u8; LIST],
) -> Result<(), Fault> {
    let kind = kind_of(first(s)).ok_or(Fault::NoRecord)?;
    let k = taken(s, bytes).ok_or(Fault::NoRecord)?;
    let n = Numbers::of(s, lendable(kind)).ok_or(Fault::NoRecord)?;
    answered(a, kind, s, part(bytes, 0, k), &n)
}
