// The two entry points: a block from a payload, and a block from a bin list. Each takes anything: what is not accepted is answered by its number.
ghost use Rattle.std.specs.Prelude.{◌≡◌};
ghost use Rattle.cabac.specs.Numbers.{checked};
ghost use Rattle.trees.specs.Lent.{contexts_refusal};
ghost use Rattle.h264_block.specs.Entries.{block_refusal, read_payload, read_bins};
ghost use Rattle.h264_reader.specs.EntriesAgree.{payload_read, bins_read, payload_checks};

use crate::block::{clear, read_into};
use bins::places::SourcePlace;
use bins::state::{Engine, Interval, Taken};
use cabac_checks::checks::{passed, payload_refusal, state_refusal};
use cabac_state::engine::{open, settle};

// The greatest magnitude of a block, and the state behind it.
#[derive(Clone, Copy)]
pub struct Found {
    pub greatest: u32,
    pub next: Engine,
}

// A block found, or the number of the refusal.
pub type Read = Result<Found, u32>;

// The greatest magnitude, or the number of the refusal.
pub type ReadList = Result<u32, u32>;

// 4
fn block_refusal(block: &[i32]) -> u32
    ensures { result ≡ block_refusal block.now }
{
    if block.len() < 16 {
        return 4;
    }
    0
}

// 3
pub fn contexts_refusal(contexts: &[u8]) -> u32
    ensures { result ≡ contexts_refusal contexts.now }
{
    if contexts.iter().any(|c| 127 < *c) {
        return 3;
    }
    0
}

// 1, 2, 4, 3, 6
fn check_payload(bytes: &[u8], e: Engine, contexts: &[u8], block: &[i32]) -> Result<(), u32>
    ensures { result ≡ checked (payload_checks bytes.now e contexts.now block.now) }
{
    passed(payload_refusal(bytes))?;
    passed(block_refusal(block))?;
    passed(state_refusal(bytes, e))?;
    passed(contexts_refusal(contexts))?;
    if e.ended {
        return Err(6);
    }
    Ok(())
}

// One block from a payload.
pub fn residual_block(bytes: &[u8], e: Engine, contexts: &mut [u8; 40], block: &mut [i32]) -> Read
    ensures { payload_read result contexts.new block.new ≡ read_payload bytes.now e contexts.old block.old }
{
    check_payload(bytes, e, contexts, block)?;
    match read_into(false, contexts, bytes, block, open(e)) {
        Ok(
            Taken {
                value: greatest,
                next: x,
            },
        ) => Ok(Found {
            greatest,
            next: settle(bytes, e, x),
        }),
        Err(r) => Err(r.number),
    }
}

// One block from a bin list, which it must end.
pub fn read_bins(bytes: &[u8], block: &mut [i32]) -> ReadList
    ensures { bins_read result block.new ≡ read_bins bytes.now block.old }
{
    let n = block_refusal(block);
    if n != 0 {
        return Err(n);
    }
    let mut contexts = [0u8; 40];
    let front = Interval {
        range: 256,
        offset: 0,
        position: SourcePlace(0),
    };
    match read_into(true, &mut contexts, bytes, block, front) {
        Ok(
            Taken {
                value: greatest,
                next: x,
            },
        ) => {
            let at = x.position;
            if at.0 != bytes.len() {
                clear(block);
                return Err(13);
            }
            Ok(greatest)
        }
        Err(r) => Err(r.number),
    }
}
