// Records of H.264's block of 16 coefficients (request (xiii)).
//
//     h264 payload [state ctx places] => answer levels state changes: 40 contexts
//     h264list list [places] => answer levels
//     h264write levels [places room] => answer length list
//     h264init q pairs => answer ctx: pairs m:n, parted by commas
//
// At a refusal: answer memory. A list that is accepted must be the one that the bin writer makes of its block.
use bins::state::Engine;
use case_blocks::blocks::{all_levels, refused};
use case_blocks::writes::told;
use case_lent::lent::{BLANK, LIST, MARK, first_of, front};
use case_text::answer::{Answer, Fault};
use case_text::given;
use case_text::given::PLACES;
use case_text::record::value;
use h264_contexts::contexts::init_pairs;
use h264_reader::entries::{Found, read_bins, residual_block};
use h264_writer::entries::write_bins;
use octet_scan::find;
use std::io;
use text::lines::part;
use text::write;

const CONTEXTS: usize = 40;

// How many numbers the pairs of a record have at most: those of 44.
const NUMBERS: usize = 88;

fn greatest(block: &[i32; PLACES]) -> u64 {
    let mut m: u64 = 0;
    for level in &block[..16] {
        m = m.max(write::magnitude(*level));
    }
    m
}

// The levels, of which one has the magnitude that is given as the greatest.
fn levels(a: &mut Answer<'_, impl Print>, m: u32, block: &[i32; PLACES]) -> io::Result<()> {
    a.text(b"answer=0 levels=")?;
    all_levels(a, block, 16)?;
    a.unless(greatest(block) == u64::from(m), b" greatest=differs")
}

fn from(
    a: &mut Answer<'_, impl Print>,
    bytes: &[u8],
    e: Engine,
    contexts: &[u8; CONTEXTS],
    places: usize,
) -> io::Result<()> {
    let mut block = [MARK; PLACES];
    let mut after = *contexts;
    match residual_block(bytes, e, &mut after, front(&mut block, places)) {
        Ok(Found { greatest: m, next }) => {
            levels(a, m, &block)?;
            a.state(b" state=", next)?;
            a.changes(contexts, &after)
        }
        Err(n) => {
            refused(a, n, &block, 16)?;
            a.unless(after == *contexts, b" ctx=changed")
        }
    }
}

pub fn payload(
    a: &mut Answer<'_, impl Print>,
    s: &[u8],
    bytes: &[u8],
    e: Engine,
    places: usize,
) -> Result<(), Fault> {
    let contexts = given::octets(value(s, b"ctx"), 64).ok_or(Fault::NoRecord)?;
    from(a, bytes, e, &contexts, places)?;
    Ok(())
}

fn is_list_of(block: &[i32; PLACES], bins: &[u8]) -> bool {
    let mut room = [BLANK; LIST];
    match write_bins(block, &mut room) {
        Ok(n) => part(&room, 0, n) == bins,
        Err(_) => false,
    }
}

pub fn list(a: &mut Answer<'_, impl Print>, bins: &[u8], places: usize) -> io::Result<()> {
    let mut block = [MARK; PLACES];
    match read_bins(bins, front(&mut block, places)) {
        Ok(m) => {
            levels(a, m, &block)?;
            a.unless(is_list_of(&block, bins), b" again=differs")
        }
        Err(n) => refused(a, n, &block, 16),
    }
}

fn written(
    a: &mut Answer<'_, impl Print>,
    block: &[i32; PLACES],
    length: usize,
    places: usize,
) -> io::Result<()> {
    let mut room = [BLANK; LIST];
    let r = write_bins(first_of(block, places), front(&mut room, length));
    told(a, r, &room)
}

pub fn write(
    a: &mut Answer<'_, impl Print>,
    s: &[u8],
    length: usize,
    places: usize,
) -> Result<(), Fault> {
    let block = given::levels(value(s, b"levels")).ok_or(Fault::NoRecord)?;
    written(a, &block, length, places)?;
    Ok(())
}

// The numbers of pairs, so many from the first on.
#[derive(Drop)]
struct Pairs {
    numbers: [i32; NUMBERS],
    count: usize,
}

impl Pairs {
    // m:n, parted by commas; none where one is none or they are too many.
    fn of(s: &[u8]) -> Option<Pairs> {
        let mut pairs = Pairs {
            numbers: [0i32; NUMBERS],
            count: 0,
        };
        for pair in s.split(|b| *b == b',') {
            pairs.put(pair)?;
        }
        Some(pairs)
    }

    // m:n
    fn put(&mut self, s: &[u8]) -> Option<()> {
        let colon = find(s, 0, s.len(), b':');
        let m = given::integer(part(s, 0, colon))?;
        let n = given::integer(part(s, colon + 1, s.len()))?;
        let k = self.count;
        if NUMBERS - 1 <= k {
            return None;
        }
        self.numbers[k] = m;
        self.numbers[k + 1] = n;
        self.count = k + 2;
        Some(())
    }

    fn given(&self) -> &[i32] {
        first_of(&self.numbers, self.count)
    }
}

// Contexts hold something else before: an initialisation sets all of them, a refusal none.
fn initial(a: &mut Answer<'_, impl Print>, pairs: &Pairs, q: u8) -> io::Result<()> {
    let mut contexts = [7u8; CONTEXTS];
    match init_pairs(&mut contexts, pairs.given(), q) {
        0 => {
            a.text(b"answer=0 ctx=")?;
            a.bytes(&contexts)
        }
        n => {
            a.refusal(n)?;
            a.unless(contexts == [7u8; CONTEXTS], b" ctx=changed")
        }
    }
}

pub fn contexts(a: &mut Answer<'_, impl Print>, s: &[u8], q: u8) -> Result<(), Fault> {
    let pairs = Pairs::of(value(s, b"pairs")).ok_or(Fault::NoRecord)?;
    initial(a, &pairs, q)?;
    Ok(())
}
