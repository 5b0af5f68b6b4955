// Records of the cross-component scale.
//
//     cross component payload [state ctx] => answer scale state changes
//     crosslist component list => answer scale
//     crosswrite component scale [room] => answer length list
use bins::state::Engine;
use case_blocks::writes;
use case_lent::lent::{BLANK, LIST, front};
use case_text::answer::{Answer, Fault};
use case_text::given;
use case_text::given::Lent;
use case_text::record::value;
use hevc_scale::entries::{FoundScale, read_scale, read_scale_bins};
use hevc_scale_writer::entries::write_scale_bins;
use std::io;

fn scaled(a: &mut Answer<'_, impl Print>, z: i32) -> io::Result<()> {
    a.text(b"answer=0 scale=")?;
    a.signed(z)
}

pub fn payload(
    a: &mut Answer<'_, impl Print>,
    s: &[u8],
    bytes: &[u8],
    e: Engine,
    component: u32,
) -> Result<(), Fault> {
    let lent = Lent::of(s).ok_or(Fault::NoRecord)?;
    from(a, bytes, e, component, &lent)?;
    Ok(())
}

fn from(
    a: &mut Answer<'_, impl Print>,
    bytes: &[u8],
    e: Engine,
    component: u32,
    lent: &Lent,
) -> io::Result<()> {
    let mut after = *lent;
    match read_scale(bytes, e, &mut after.contexts, component) {
        Ok(FoundScale { scale: z, next }) => {
            scaled(a, z)?;
            a.state(b" state=", next)?;
            a.changes(&lent.contexts, &after.contexts)
        }
        Err(n) => {
            a.refusal(n)?;
            a.unless(after == *lent, b" ctx=changed")
        }
    }
}

pub fn list(a: &mut Answer<'_, impl Print>, bins: &[u8], component: u32) -> io::Result<()> {
    match read_scale_bins(bins, component) {
        Ok(z) => scaled(a, z),
        Err(n) => a.refusal(n),
    }
}

fn written(
    a: &mut Answer<'_, impl Print>,
    component: u32,
    z: i32,
    length: usize,
) -> io::Result<()> {
    let mut room = [BLANK; LIST];
    let r = write_scale_bins(component, z, front(&mut room, length));
    writes::told(a, r, &room)
}

pub fn write(
    a: &mut Answer<'_, impl Print>,
    s: &[u8],
    component: u32,
    length: usize,
) -> Result<(), Fault> {
    let z = given::integer(value(s, b"scale")).ok_or(Fault::NoRecord)?;
    written(a, component, z, length)?;
    Ok(())
}
