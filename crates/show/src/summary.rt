// The summary of the block: how many levels are not zero, the sum of their magnitudes, and which 4x4 sub-blocks hold one.
ghost use Rattle.std.specs.Prelude.{◌≤◌};

use hevc_kept_whole::whole::recount;
use hevc_summary::kept::{Form, Whole};
use std::io;
use text::write;

fn side(log2: u32) -> usize
    ensures { 1 ≤ result }
{
    match log2 {
        2 => 1,
        3 => 2,
        4 => 4,
        _ => 8,
    }
}

fn subs(log2: u32) -> usize
    ensures { result ≤ 64 }
{
    match log2 {
        2 => 1,
        3 => 4,
        4 => 16,
        _ => 64,
    }
}

fn mark(out: &impl Print, count: u32) -> io::Result<()> {
    if count == 0 {
        write::text(out, b" .")
    } else {
        write::text(out, b" #")
    }
}

// Row by row: # where a sub-block holds a level.
fn map(out: &impl Print, counts: &[u32; 64], log2: u32) -> io::Result<()> {
    let n = side(log2);
    let end = subs(log2);
    for s in 0..end {
        mark(out, counts[s])?;
        if (s + 1) % n == 0 {
            write::end_line(out)?;
        }
    }
    Ok(())
}

// The range has no part in a fresh count: any will do.
pub fn of(out: &impl Print, block: &[i32; 1024], log2: u32) -> io::Result<()> {
    let mut counts = [0u32; 64];
    let mut sums = [0u64; 64];
    let form = Form { log2, bits: 15 };
    let none = Whole {
        count: 0,
        sum: 0,
        map: 0,
    };
    let r = recount(block, &mut counts, &mut sums, form, none);
    let whole = r.whole;
    write::text(out, b"levels not zero     ")?;
    write::decimal(out, whole.count)?;
    write::end_line(out)?;
    write::text(out, b"sum of magnitudes   ")?;
    write::decimal(out, whole.sum)?;
    write::end_line(out)?;
    write::line(out, b"sub-blocks with one")?;
    map(out, &counts, log2)
}
