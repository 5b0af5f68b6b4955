// Records of the arithmetic writer (request (i)).
//
//     pack list or list1 [p ctx stats room] => answer length bits payload changes
//     packscale component list [ctx room] => answer length bits payload changes
//     packtray records list [ctx stats room] => answer done length bits payload changes stats; at a refusal answer done
//
// The payload is read again: bits is the place behind terminate, changes the contexts there. A block that is read has this list, a scale is the list's.
// Records are those of a tray (records.rt).
use crate::records::{ROWS, Records};
use bins::state::Engine;
use bins::tags::CONTEXTS;
use cabac::answers::ReadBins;
use cabac_bins::decode::decode_terminate;
use cabac_engine::engine::start;
use case_blocks::coder::Coder;
use case_blocks::writes::is_list_of;
use case_lent::lent::{BLANK, LIST, front, is_blank_from};
use case_text::answer::{Answer, Fault};
use case_text::given;
use case_text::given::{LEVELS, Lent, PLACES};
use case_text::record::value;
use hevc_block_packer::entries::pack_bins;
use hevc_packer::entries::pack_scale;
use hevc_reader::entries::residual_coding;
use hevc_residual::answers::ReadBlock;
use hevc_residual::params::Params;
use hevc_scale::entries::{FoundScale, read_scale, read_scale_bins};
use hevc_tray_packer::entries::pack_tray;
use hevc_tray_reader::entries::read_tray;
use packer::list::Packing;
use std::io;
use text::lines::part;

// What is said for the place behind terminate where there is none.
const NO_PLACE: usize = usize::MAX - 2;

// The place behind terminate; none where the bin is 0, or where it draws past the end.
fn bits(bytes: &[u8], e: Engine) -> Option<usize> {
    match decode_terminate(bytes, e) {
        Ok(
            ReadBins {
                value: 1,
                state: end,
            },
        ) if end.past == 0 => Some(end.position.0),
        _ => None,
    }
}

// A payload, from whose start a reader came to a state, with the contexts behind it.
fn said(
    a: &mut Answer<'_, impl Print>,
    bytes: &[u8],
    e: Engine,
    contexts: &[u8; CONTEXTS],
    after: &[u8; CONTEXTS],
) -> io::Result<()> {
    let place = bits(bytes, e).unwrap_or(NO_PLACE);
    a.form(
        b"length=$0 bits=$1 payload=",
        &[bytes.len() as u64, place as u64],
    )?;
    a.bytes(bytes)?;
    a.changes(contexts, after)
}

// The payload that was packed, and the state at its start: of a refusal, also of the start, it is said.
fn begun<'r>(
    a: &mut Answer<'_, impl Print>,
    r: Packing,
    room: &'r [u8; LIST],
) -> io::Result<Option<(&'r [u8], Engine)>> {
    match r {
        Ok(n) => {
            let bytes = part(room, 0, n);
            match start(bytes) {
                Ok(e) => Ok(Some((bytes, e))),
                Err(_) => {
                    a.text(b"start=refused")?;
                    Ok(None)
                }
            }
        }
        Err(n) => {
            a.refusal(n)?;
            Ok(None)
        }
    }
}

// What stands behind the payload is as it was; a refusal leaves all of it.
fn rest(a: &mut Answer<'_, impl Print>, r: Packing, room: &[u8; LIST]) -> io::Result<()> {
    a.unless(is_blank_from(room, r.unwrap_or(0)), b" room=changed")
}

fn again(
    a: &mut Answer<'_, impl Print>,
    bytes: &[u8],
    e: Engine,
    p: Params,
    lent: &Lent,
    list: &[u8],
) -> io::Result<()> {
    let mut block = [0i32; PLACES];
    let mut after = *lent;
    match residual_coding(
        bytes,
        e,
        &mut after.contexts,
        &mut after.stats,
        p,
        &mut block,
    ) {
        Ok(
            ReadBlock {
                found: f,
                state: next,
            },
        ) => {
            a.text(b"answer=0 ")?;
            said(a, bytes, next, &lent.contexts, &after.contexts)?;
            let right = is_list_of(Coder::Full, p, &lent.stats, &block, f, list, &after.stats);
            a.unless(right, b" again=differs")
        }
        Err(_) => a.text(b"block=refused"),
    }
}

fn packed(
    a: &mut Answer<'_, impl Print>,
    list: &[u8],
    p: Params,
    lent: &Lent,
    length: usize,
) -> io::Result<()> {
    let mut room = [BLANK; LIST];
    let r = pack_bins(
        &lent.contexts,
        &lent.stats,
        p,
        list,
        front(&mut room, length),
    );
    if let Some((bytes, e)) = begun(a, r, &room)? {
        again(a, bytes, e, p, lent, list)?;
    }
    rest(a, r, &room)
}

pub fn pack(
    a: &mut Answer<'_, impl Print>,
    s: &[u8],
    list: &[u8],
    length: usize,
) -> Result<(), Fault> {
    let lent = Lent::of(s).ok_or(Fault::NoRecord)?;
    let p = given::params(value(s, b"p")).ok_or(Fault::NoRecord)?;
    packed(a, list, p, &lent, length)?;
    Ok(())
}

// The scale that is read from the payload is the one that its list has.
fn scale_again(
    a: &mut Answer<'_, impl Print>,
    bytes: &[u8],
    e: Engine,
    component: u32,
    contexts: &[u8; CONTEXTS],
    list: &[u8],
) -> io::Result<()> {
    let mut after = *contexts;
    let Ok(FoundScale { scale: z, next }) = read_scale(bytes, e, &mut after, component) else {
        return a.text(b"scale=refused");
    };
    a.text(b"answer=0 ")?;
    said(a, bytes, next, contexts, &after)?;
    match read_scale_bins(list, component) {
        Ok(y) => a.unless(y == z, b" again=differs"),
        Err(_) => a.text(b" list=refused"),
    }
}

fn scale_packed(
    a: &mut Answer<'_, impl Print>,
    list: &[u8],
    component: u32,
    contexts: &[u8; CONTEXTS],
    length: usize,
) -> io::Result<()> {
    let mut room = [BLANK; LIST];
    let r = pack_scale(contexts, component, list, front(&mut room, length));
    if let Some((bytes, e)) = begun(a, r, &room)? {
        scale_again(a, bytes, e, component, contexts, list)?;
    }
    rest(a, r, &room)
}

pub fn scale(
    a: &mut Answer<'_, impl Print>,
    s: &[u8],
    list: &[u8],
    component: u32,
    length: usize,
) -> Result<(), Fault> {
    let lent = Lent::of(s).ok_or(Fault::NoRecord)?;
    scale_packed(a, list, component, &lent.contexts, length)?;
    Ok(())
}

fn tray_again(
    a: &mut Answer<'_, impl Print>,
    bytes: &[u8],
    e: Engine,
    lent: &Lent,
    rows: &[[u8; 14]],
) -> io::Result<()> {
    let mut places = [0i32; LEVELS];
    let mut found = [[0u32; 5]; ROWS];
    let mut after = *lent;
    let t = read_tray(
        bytes,
        e,
        &mut after.contexts,
        &mut after.stats,
        rows,
        &mut places,
        &mut found,
    );
    let right = (t.number == 0) & (t.done == rows.len());
    let end = t.state;
    said(a, bytes, end, &lent.contexts, &after.contexts)?;
    a.statistics(&after.stats)?;
    a.unless(right, b" again=differs")
}

fn tray_packed(
    a: &mut Answer<'_, impl Print>,
    list: &[u8],
    lent: &Lent,
    records: &Records,
    length: usize,
) -> io::Result<()> {
    let mut room = [BLANK; LIST];
    let rows = records.given();
    let tray = pack_tray(
        &lent.contexts,
        &lent.stats,
        rows,
        list,
        front(&mut room, length),
    );
    let done = tray.done as u64;
    let r = tray.packing;
    match r {
        Ok(_) => a.form(b"answer=0 done=$0 ", &[done])?,
        Err(_) => {}
    }
    match begun(a, r, &room)? {
        Some((bytes, e)) => tray_again(a, bytes, e, lent, rows)?,
        None => {}
    }
    match r {
        Ok(_) => {}
        Err(_) => a.form(b" done=$0", &[done])?,
    }
    rest(a, r, &room)
}

pub fn tray(
    a: &mut Answer<'_, impl Print>,
    s: &[u8],
    list: &[u8],
    length: usize,
) -> Result<(), Fault> {
    let lent = Lent::of(s).ok_or(Fault::NoRecord)?;
    let records = Records::of(value(s, b"records")).ok_or(Fault::NoRecord)?;
    tray_packed(a, list, &lent, &records, length)?;
    Ok(())
}
