// A frame of H.264: its levels by list place and as a grid, or the refusal in words.
use crate::words;
use bins::state::Engine;
use h264_frame::{list_place, read_frame};
use show_grid::grid;
use std::io;
use text::write;

fn spaced(out: &impl Print, level: i32) -> io::Result<()> {
    write::text(out, b" ")?;
    write::signed(out, level)
}

// The levels by list place.
fn by_place(out: &impl Print, levels: &[i32; 16]) -> io::Result<()> {
    write::text(out, b"by list place      ")?;
    for level in levels {
        spaced(out, *level)?;
    }
    write::end_line(out)
}

// Row by row, each level from its place in the zig-zag scan.
fn laid(levels: &[i32; 16], block: &mut [i32; 1024]) {
    for i in 0..16 {
        block[i] = levels[list_place(i / 4, i % 4)];
    }
}

fn as_grid(out: &impl Print, levels: &[i32; 16], greatest: u32) -> io::Result<()> {
    let mut block = [0i32; 1024];
    laid(levels, &mut block);
    write::line(out, b"as a grid, by the zig-zag scan of frames")?;
    grid::levels(out, &block, 2, greatest)
}

fn shown(
    out: &impl Print,
    levels: &[i32; 16],
    greatest: u32,
    e: Engine,
    bytes: usize,
) -> io::Result<()> {
    write::line(out, b"accepted: 4 by 4, luma of H.264")?;
    words::greatest(out, greatest)?;
    words::drawn(out, e, bytes)?;
    by_place(out, levels)?;
    as_grid(out, levels, greatest)
}

// The bytes of a frame, of which so many are the payload's.
pub fn frame(out: &impl Print, bytes: &[u8], payload: usize) -> io::Result<()> {
    let mut levels = [0i32; 16];
    match read_frame(bytes, &mut levels) {
        Some(Ok(found)) => shown(out, &levels, found.greatest, found.next, payload),
        Some(Err(n)) => words::refused(out, n),
        None => write::line(out, b"bad input: these are not the bytes of a frame"),
    }
}
