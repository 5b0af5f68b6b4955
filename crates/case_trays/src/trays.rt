// Records of trays (request (iv)).
//
//     tray records payload [state ctx stats places] => answer done state changes stats found parts
//
// Records are parameters, parted by ; and K*p for K of them, or a dash for none: 300 at most, of which no number is above 255. 4,864 places can
// be lent, and are where `places` is not given. Of each block done, found has skip:rdpcm:column:row:greatest, and parts its levels; then stands
// zero for the part of a refused block, and untouched for all parts behind.
use crate::records::{ROWS, Records};
use bins::state::Engine;
use case_blocks::blocks::{area, direction, levels};
use case_lent::lent::{MARK, front, holds};
use case_text::answer::{Answer, Fault};
use case_text::given::{LEVELS, Lent};
use case_text::record::value;
use hevc_tray::entries::Tray;
use hevc_tray_reader::entries::read_tray;
use std::io;

// What each number of a row for what is found holds before the call.
const ROW_MARK: u32 = 4294967295;

// A row of what is found, behind a semicolon where it is not the first.
fn row(a: &mut Answer<'_, impl Print>, first: bool, r: [u32; 5]) -> io::Result<()> {
    a.unless(first, b";")?;
    a.form(b"$0:", &[u64::from(r[0])])?;
    direction(a, r[1])?;
    a.form(
        b":$0:$1:$2",
        &[u64::from(r[2]), u64::from(r[3]), u64::from(r[4])],
    )
}

// The rows of the blocks done; those behind are as they were.
fn found(a: &mut Answer<'_, impl Print>, rows: &[[u32; 5]; ROWS], done: usize) -> io::Result<()> {
    a.text(b" found=")?;
    for (i, r) in rows.iter().enumerate() {
        if i < done {
            row(a, i == 0, *r)?;
        } else {
            a.unless(*r == [ROW_MARK; 5], b" row=changed")?;
        }
    }
    a.unless(0 < done, b"-")
}

// Where the part ends that begins at a place; at the end of the buffer where that has less left.
fn end_of(from: usize, log2: u8) -> usize {
    let n = area(u32::from(log2));
    if LEVELS < from {
        return from;
    }
    if LEVELS - from < n {
        return LEVELS;
    }
    from + n
}

// All places from one on are as they were.
fn rest(a: &mut Answer<'_, impl Print>, places: &[i32], from: usize) -> io::Result<()> {
    a.unless(holds(places, from, LEVELS, MARK), b" behind=changed")
}

// What stands behind the parts of the blocks done, where so many are left.
fn behind(
    a: &mut Answer<'_, impl Print>,
    places: &[i32],
    from: usize,
    number: u32,
    left: usize,
    log2: u8,
) -> io::Result<()> {
    if (number != 7) & (number != 8) {
        a.unless(number == 0, b"untouched")?;
        return rest(a, places, from);
    }
    let end = end_of(from, log2);
    a.unless(from == 0, b";")?;
    if holds(places, from, end, 0) {
        a.text(b"zero")?;
    } else {
        a.text(b"changed")?;
    }
    a.unless(left < 2, b";untouched")?;
    rest(a, places, end)
}

fn parts(
    a: &mut Answer<'_, impl Print>,
    rows: &[[u8; 14]; ROWS],
    count: usize,
    number: u32,
    done: usize,
    places: &[i32],
) -> io::Result<()> {
    a.text(b" parts=")?;
    let mut from: usize = 0;
    for (i, row) in rows.iter().enumerate() {
        if done <= i {
            if count < i {
                *a = Answer::Other;
                return Ok(());
            }
            return behind(a, places, from, number, count - i, row[0]);
        }
        let end = end_of(from, row[0]);
        a.unless(i == 0, b";")?;
        levels(a, places, from, end)?;
        from = end;
    }
    *a = Answer::Other;
    Ok(())
}

// The state, contexts and statistics that the last block done left.
fn told(a: &mut Answer<'_, impl Print>, t: Tray, lent: &Lent, after: &Lent) -> io::Result<()> {
    let e = t.state;
    a.form(b"answer=$0 done=$1", &[u64::from(t.number), t.done as u64])?;
    a.state(b" state=", e)?;
    a.changes(&lent.contexts, &after.contexts)?;
    a.statistics(&after.stats)
}

fn read(
    a: &mut Answer<'_, impl Print>,
    bytes: &[u8],
    e: Engine,
    lent: &Lent,
    records: &Records,
    places: usize,
) -> io::Result<()> {
    let mut room = [MARK; LEVELS];
    let mut found_rows = [[ROW_MARK; 5]; ROWS];
    let mut after = *lent;
    let t = read_tray(
        bytes,
        e,
        &mut after.contexts,
        &mut after.stats,
        records.given(),
        front(&mut room, places),
        &mut found_rows,
    );
    let number = t.number;
    let done = t.done;
    told(a, t, lent, &after)?;
    found(a, &found_rows, done)?;
    parts(a, &records.rows, records.count, number, done, &room)?;
    a.unless(0 < records.count, b"-")
}

pub fn tray(
    a: &mut Answer<'_, impl Print>,
    s: &[u8],
    bytes: &[u8],
    e: Engine,
    places: usize,
) -> Result<(), Fault> {
    let lent = Lent::of(s).ok_or(Fault::NoRecord)?;
    let records = Records::of(value(s, b"records")).ok_or(Fault::NoRecord)?;
    read(a, bytes, e, &lent, &records, places)?;
    Ok(())
}
