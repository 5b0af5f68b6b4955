// The levels at the significant places, from the highest.
ghost use Rattle.std.specs.Prelude.{◌≡◌, ◌≤◌, ◌<◌, length, set};
ghost use Rattle.tables.specs.Decisions.{decisions};
ghost use Rattle.trees.specs.Levels.{signed, in_range};
ghost use Rattle.trees.specs.Agree.{Reads};
ghost use Rattle.h264_block.specs.BlockAgree.{SaysLevel, SaysLevels};

use crate::magnitude::magnitude;
use bin_steps::steps::decode_bypass;
use bins::state::{Interval, Refusal, Step, Taken};

fn in_range(negative: bool, m: u32) -> bool
    ensures { result ≡ in_range 15 negative m }
{
    if negative { m <= 32768 } else { m < 32768 }
}

fn store(block: &mut [i32; 16], at: usize, negative: bool, m: u32)
    requires { (at < 16) × (m ≤ 4194304) }
    ensures { block.new ≡ set block.old at (signed negative m) }
{
    if negative {
        block[at] = -(m as i32);
    } else {
        block[at] = m as i32;
    }
}

// The level at place k, stored there; the answer is its magnitude less 1. Out of range is 8, once the sign is read.
fn one_level(
    list: bool,
    table: &[u32; 512],
    contexts: &mut [u8; 40],
    ones: u32,
    bigs: u32,
    k: usize,
    block: &mut [i32; 16],
    bytes: &[u8],
    x: Interval,
) -> Step
    requires { Reads list bytes.now x contexts.old × (k < 16) × (table.now ≡ decisions) }
    ensures { SaysLevel result list bytes.now ones bigs k x contexts.old contexts.new block.old block.new }
{
    let Taken { value: v, next: y } = magnitude(list, table, contexts, ones, bigs, bytes, x)?;
    let Taken { value: sign, next } = decode_bypass(list, bytes, y)?;
    let negative = sign == 1;
    let m = v + 1;
    if !in_range(negative, m) {
        return Err(Refusal {
            number: 8,
            at: next,
        });
    }
    store(block, k, negative, m);
    Ok(Taken { value: v, next })
}

pub fn levels(
    list: bool,
    table: &[u32; 512],
    contexts: &mut [u8; 40],
    marks: &[bool; 16],
    block: &mut [i32; 16],
    bytes: &[u8],
    x: Interval,
) -> Step
    requires { Reads list bytes.now x contexts.old × (table.now ≡ decisions) }
    ensures { SaysLevels result list bytes.now marks.now x contexts.old contexts.new block.old block.new }
{
    let mut y = x;
    let mut ones: u32 = 0;
    let mut bigs: u32 = 0;
    for k in (0..16).rev() {
        if marks[k] {
            let Taken { value: v, next } = one_level(
                list, table, contexts, ones, bigs, k, block, bytes, y,
            )?;
            y = next;
            if v == 0 {
                ones += 1;
            } else {
                bigs += 1;
            }
        }
    }
    Ok(Taken { value: 0, next: y })
}
