// Records of whole slices of any syntax: every bin is read through an entry point and compared with the one that the record has.
//
//     slice payload contexts ops [state] => answer begun bins state changes
//
// It begins by a start on the payload, or by a restart from a state. Contexts are 199. An operation is two bytes, the high one first:
// 2·context + bin, or fffe, ffff for bypass, or fffc, fffd for terminate. The bins are counted up to one that is another, or is refused.
use bins::state::Engine;
use cabac::answers::{Bins, DecidedBin, ReadBins, State};
use cabac_bins::decode::{decode_bin, decode_terminate};
use cabac_bypass::bypass::{decode_bypass, decode_bypass_bits};
use cabac_engine::engine::restart;
use case_text::answer::{Answer, Fault};
use case_text::given;
use case_text::record::value;
use std::io;
use text::lines::part;
use text_octets::octets::hex_bytes;

// How many contexts a slice of any syntax has, and how many bytes its operations at most.
pub const CONTEXTS: usize = 199;

pub const OPERATIONS: usize = 16384;

fn decided(contexts: &mut [u8; CONTEXTS], number: usize, bytes: &[u8], e: Engine) -> Bins {
    if CONTEXTS <= number {
        return Err(0);
    }
    match decode_bin(bytes, e, contexts[number]) {
        Ok(
            DecidedBin {
                bin: bin,
                context: context,
                state: next,
            },
        ) => {
            contexts[number] = context;
            Ok(ReadBins {
                value: u32::from(bin),
                state: next,
            })
        }
        Err(n) => Err(n),
    }
}

// A bypass bin is read by one of its two entry points, by what it must be.
fn step(contexts: &mut [u8; CONTEXTS], high: u8, low: u8, bytes: &[u8], e: Engine) -> Bins {
    if high < 255 {
        return decided(contexts, high as usize * 128 + low as usize / 2, bytes, e);
    }
    match low {
        254 => decode_bypass(bytes, e),
        255 => decode_bypass_bits(bytes, e, 1),
        _ => decode_terminate(bytes, e),
    }
}

// How many bins agreed, and the state behind them.
#[derive(Clone, Copy)]
struct Ran {
    bins: usize,
    next: Engine,
}

fn run(contexts: &mut [u8; CONTEXTS], ops: &[u8], bytes: &[u8], first: Engine) -> Ran {
    let mut e = first;
    for i in 0..ops.len() / 2 {
        let low = ops[2 * i + 1];
        match step(contexts, ops[2 * i], low, bytes, e) {
            Ok(
                ReadBins {
                    value: bin,
                    state: next,
                },
            ) if bin == u32::from(low % 2) => e = next,
            _ => return Ran { bins: i, next: e },
        }
    }
    Ran {
        bins: ops.len() / 2,
        next: e,
    }
}

fn from(
    a: &mut Answer<'_, impl Print>,
    bytes: &[u8],
    first: State,
    contexts: &[u8; CONTEXTS],
    ops: &[u8],
) -> io::Result<()> {
    match first {
        Ok(e) => {
            let mut after = *contexts;
            let r = run(&mut after, ops, bytes, e);
            let next = r.next;
            a.state(b"answer=0 begun=", e)?;
            a.form(b" bins=$0", &[r.bins as u64])?;
            a.state(b" state=", next)?;
            a.changes(contexts, &after)
        }
        Err(n) => a.refusal(n),
    }
}

// Without a state it begins at the start of the payload, and e is the state there.
fn begun(s: &[u8], bytes: &[u8], e: Engine) -> State {
    if value(s, b"state").is_empty() {
        return Ok(e);
    }
    restart(bytes, e)
}

pub fn slice(
    a: &mut Answer<'_, impl Print>,
    s: &[u8],
    bytes: &[u8],
    e: Engine,
) -> Result<(), Fault> {
    let mut ops = [0u8; OPERATIONS];
    let contexts = given::octets(value(s, b"contexts"), 0).ok_or(Fault::NoRecord)?;
    let Some(n) = hex_bytes(value(s, b"ops"), &mut ops) else {
        return Err(Fault::NoRecord);
    };
    from(a, bytes, begun(s, bytes, e), &contexts, part(&ops, 0, n))?;
    Ok(())
}
