// Records of the bin writer, and of the plain one (request (xi)).
//
//     write levels [skip rdpcm p stats room places] => answer length list stats
//     plainwrite: the same
use crate::coder::Coder;
use case_lent::lent::{BLANK, LIST, first_of, front, is_blank_from};
use case_text::answer::{Answer, Fault};
use case_text::given;
use case_text::given::{Lent, Numbers, PLACES};
use case_text::record::value;
use hevc_residual::answers::{Found, Written};
use hevc_residual::params::{Params, Rdpcm};
use std::io;
use text::lines::part;

// A list at the front of the room, with what stands behind it untouched; a refusal leaves all of it as it was.
pub fn told(a: &mut Answer<'_, impl Print>, r: Written, room: &[u8; LIST]) -> io::Result<()> {
    match r {
        Ok(n) => {
            a.form(b"answer=0 length=$0 list=", &[n as u64])?;
            a.bytes(part(room, 0, n))?;
            a.unless(is_blank_from(room, n), b" room=changed")
        }
        Err(n) => {
            a.refusal(n)?;
            a.unless(is_blank_from(room, 0), b" room=changed")
        }
    }
}

fn written(
    a: &mut Answer<'_, impl Print>,
    coder: Coder,
    p: Params,
    stats: &[u8; 4],
    block: &[i32; PLACES],
    rdpcm: Rdpcm,
    n: &Numbers,
) -> io::Result<()> {
    let mut room = [BLANK; LIST];
    let mut left = *stats;
    let r = coder.write(
        p,
        &mut left,
        first_of(block, n.places),
        n.skip,
        rdpcm,
        front(&mut room, n.room),
    );
    told(a, r, &room)?;
    match r {
        Ok(_) => a.statistics(&left),
        Err(_) => a.unless(left == *stats, b" stats=changed"),
    }
}

pub fn write(
    a: &mut Answer<'_, impl Print>,
    s: &[u8],
    coder: Coder,
    n: &Numbers,
) -> Result<(), Fault> {
    let block = given::levels(value(s, b"levels")).ok_or(Fault::NoRecord)?;
    let lent = Lent::of(s).ok_or(Fault::NoRecord)?;
    let p = given::params(value(s, b"p")).ok_or(Fault::NoRecord)?;
    let rdpcm = given::direction(value(s, b"rdpcm")).ok_or(Fault::NoRecord)?;
    written(a, coder, p, &lent.stats, &block, rdpcm, n)?;
    Ok(())
}

// Whether the writer makes this list of a block that was read, and leaves the statistics that the reader left.
pub fn is_list_of(
    coder: Coder,
    p: Params,
    stats: &[u8; 4],
    block: &[i32; PLACES],
    f: Found,
    bins: &[u8],
    after: &[u8; 4],
) -> bool {
    let mut room = [BLANK; LIST];
    let mut left = *stats;
    let rdpcm = f.rdpcm;
    match coder.write(p, &mut left, block, f.skip, rdpcm, &mut room) {
        Ok(n) => (part(&room, 0, n) == bins) & (left == *after),
        Err(_) => false,
    }
}
