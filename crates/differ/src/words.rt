// The judgement in words. These functions promise nothing but to end.
use frame::judge::Verdict;
use hevc_differ::entries::Judgement;
use std::io;
use text::write;

fn numbered(out: &impl Print, front: &[u8], n: u64, back: &[u8]) -> io::Result<()> {
    write::text(out, front)?;
    write::decimal(out, n)?;
    write::text(out, back)
}

// The lines of a pair, by the number of its second.
pub fn pair(out: &impl Print, number: u64) -> io::Result<()> {
    if 0 < number {
        numbered(out, b"lines ", number - 1, b" and ")?;
    }
    numbered(out, b"", number, b": ")
}

// What the book answers to a frame.
pub fn answer(out: &impl Print, which: &[u8], v: Verdict) -> io::Result<()> {
    write::text(out, which)?;
    match v {
        Ok(j) => {
            write::text(out, b"ok ")?;
            write::decimal32(out, j.greatest)?;
            write::spaced(out, j.past)
        }
        Err(n) => {
            write::text(out, b"no ")?;
            write::decimal32(out, n)
        }
    }
}

pub fn behind_answers(out: &impl Print) -> io::Result<()> {
    write::text(out, b"; ")
}

pub fn left_out(out: &impl Print) -> io::Result<()> {
    write::line(out, b"no two frames, so nothing is said")
}

pub fn no_frame(out: &impl Print, number: u64, n: u32) -> io::Result<()> {
    numbered(out, b"line ", number, b" is no frame, number ")?;
    write::decimal32(out, n)?;
    match n {
        20 => write::line(
            out,
            b": a character that is no lower-case hexadecimal digit, or an odd count of them",
        ),
        21 => write::line(out, b": its length is not the one that it names"),
        _ => write::line(out, b": too long"),
    }
}

fn named(out: &impl Print, i: usize) -> io::Result<()> {
    match i {
        0 => write::text(out, b"size"),
        1 => write::text(out, b"luma or chroma"),
        2 => write::text(out, b"scan"),
        3 => write::text(out, b"bit depth"),
        4 => write::text(out, b"QP"),
        5 => write::text(out, b"hiding"),
        _ => {
            write::text(out, b"initial value ")?;
            if 7 < i {
                write::count(out, i - 8)?;
            }
            Ok(())
        }
    }
}

pub fn front(out: &impl Print, i: usize) -> io::Result<()> {
    write::text(
        out,
        b"look here: the frames differ before their payloads, in ",
    )?;
    named(out, i)?;
    write::line(out, b"; of such frames nothing is proved")
}

pub fn unread(out: &impl Print, n: u32) -> io::Result<()> {
    write::text(out, b"look here: a check refuses the first by number ")?;
    write::decimal32(out, n)?;
    write::line(
        out,
        b" before the block is read, so nothing is proved of the two",
    )
}

fn unreadable(out: &impl Print, n: u32) -> io::Result<()> {
    write::text(out, b"look here: the second payload is refused by number ")?;
    write::decimal32(out, n)?;
    write::end_line(out)
}

fn past(out: &impl Print, n: u32) -> io::Result<()> {
    write::text(out, b"look here: the first draws ")?;
    write::decimal32(out, n)?;
    write::line(
        out,
        b" bits past the end of its payload; what it read there is not in the file, so nothing is proved of the two",
    )
}

fn drawn(out: &impl Print, place: usize) -> io::Result<()> {
    write::text(out, b"; the block draws the bits before ")?;
    write::count(out, place)?;
    write::end_line(out)
}

// Where the payloads begin to differ: at a bit of both, or where one ends.
fn apart(out: &impl Print, at: usize, first: usize, second: usize) -> io::Result<()> {
    if at / 8 == second {
        write::text(out, b"the second payload ends at bit ")?;
    } else {
        if at / 8 == first {
            write::text(out, b"the first payload ends at bit ")?;
        } else {
            write::text(out, b"the payloads differ at bit ")?;
        }
    }
    write::count(out, at)
}

fn never(out: &impl Print, at: usize, place: usize, first: usize, second: usize) -> io::Result<()> {
    write::text(out, b"the block can't know: ")?;
    if at / 8 == first {
        if first == second {
            write::text(out, b"the frames are the same")?;
            return drawn(out, place);
        }
    }
    apart(out, at, first, second)?;
    drawn(out, place)
}

pub fn judged(out: &impl Print, j: Judgement, first: usize, second: usize) -> io::Result<()> {
    match j {
        Judgement::Unread(n) => unread(out, n),
        Judgement::Unreadable(n) => unreadable(out, n),
        Judgement::Past(n) => past(out, n),
        Judgement::Here(at, place) => {
            write::text(out, b"look here: ")?;
            apart(out, at, first, second)?;
            drawn(out, place)
        }
        Judgement::Never(at, place) => never(out, at, place, first, second),
    }
}

// A first frame that no second one follows.
pub fn ended(out: &impl Print, number: u64, waits: bool) -> io::Result<()> {
    if !waits {
        return Ok(());
    }
    if 0 < number {
        numbered(out, b"line ", number - 1, b" has no second\n")?;
    }
    Ok(())
}
