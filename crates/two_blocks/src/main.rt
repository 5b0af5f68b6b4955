// Two blocks of one payload, one after the other: through a decoder that holds the payload, and through the plain entry point.
// A line for each block: extents, greatest magnitude and the position behind it, and whether the two leave the same behind.
#![tactic(auto)]

use bins::state::Engine;
use bins::tags::CONTEXTS;
use cabac_engine::engine::start;
use hevc_decoder::decoder::block_through;
use hevc_reader::entries::residual_coding;
use hevc_residual::answers::Read;
use hevc_residual::params::{Params, all_off};
use same_answers::alike::{same_answer, same_contexts, same_levels, same_statistics};
use std::io;
use text::write;

// 8x8 luma, scan 0, all options off.
fn params() -> Params {
    all_off(3, true, 0, 8, false)
}

fn show(out: &impl Print, r: Read) -> io::Result<()> {
    match r {
        Ok(b) => {
            let f = b.found;
            write::text(out, b"extents")?;
            write::spaced(out, f.column)?;
            write::spaced(out, f.row)?;
            write::text(out, b", greatest")?;
            write::spaced(out, f.greatest)?;
            write::text(out, b", position")?;
            write::spaced_count(out, b.state.position.0)
        }
        Err(n) => {
            write::text(out, b"number")?;
            write::spaced(out, n)
        }
    }
}

fn judge(out: &impl Print, same: bool) -> io::Result<()> {
    if same {
        write::line(out, b", the same")
    } else {
        write::line(out, b", NOT THE SAME")
    }
}

// The state behind the block; a refusal leaves the one handed in.
fn behind(r: Read, e: Engine) -> Engine {
    match r {
        Ok(b) => b.state,
        Err(_) => e,
    }
}

// One block both ways; contexts and statistics go on.
fn both(
    out: &impl Print,
    payload: &[u8],
    e: Engine,
    contexts: &mut [u8; CONTEXTS],
    stats: &mut [u8; 4],
) -> io::Result<Engine> {
    let p = params();
    let mut held_contexts = *contexts;
    let mut held_stats = *stats;
    let mut held_block = [7i32; 64];
    let mut block = [7i32; 64];
    let held = block_through(
        payload,
        e,
        &mut held_contexts,
        &mut held_stats,
        p,
        &mut held_block,
    );
    let plain = residual_coding(payload, e, contexts, stats, p, &mut block);
    show(out, held)?;
    let answers = same_answer(held, plain);
    let levels = same_levels(&held_block, &block);
    let left = same_contexts(&held_contexts, contexts) & same_statistics(&held_stats, stats);
    judge(out, answers & levels & left)?;
    Ok(behind(held, e))
}

fn run(out: &impl Print, payload: &[u8]) -> io::Result<()> {
    let Ok(e) = start(payload) else {
        return write::line(out, b"no start");
    };
    let mut contexts = [64u8; CONTEXTS];
    let mut stats = [0u8; 4];
    let next = both(out, payload, e, &mut contexts, &mut stats)?;
    both(out, payload, next, &mut contexts, &mut stats)?;
    Ok(())
}

fn main(rt: HostRuntime) -> io::Result<()> {
    run(
        &rt.stdout(),
        b"Two blocks of one payload, one after the other, as any bytes make them.",
    )
}
