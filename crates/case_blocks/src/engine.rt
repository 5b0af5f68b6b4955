// Records of the engine's entry points.
//
//     start payload => answer state
//     decision payload context [state] => answer value state context
//     bypass payload count [state] => answer value state
//     single payload [state] => answer value state: the entry point of one bypass bin
//     raw payload count [state] => answer value state
//     terminate payload [state] => answer value state
//     align payload [state] => answer rest state
//     restart payload [state] => answer state
//     alignbypass payload [state] => answer state: alignment of the range, as before escape data
use bins::state::Engine;
use cabac::answers::{Bins, DecidedBin, Decision, ReadBins, State};
use cabac_align::align::{align_bypass, byte_align, rest};
use cabac_bins::decode::{decode_bin, decode_terminate};
use cabac_bypass::bypass::{decode_bypass, decode_bypass_bits, read_bits};
use cabac_engine::engine::restart;
use case_text::answer::Answer;
use case_text::given::Numbers;
use std::io;
use text::lines::part;

// The entry points that go on from a state.
#[derive(Clone, Copy, PartialEq, Eq)]
pub enum Entry {
    Decision,
    Bypass,
    Single,
    Raw,
    Terminate,
    Align,
    Restart,
    AlignBypass,
}

pub fn ready(a: &mut Answer<'_, impl Print>, r: State) -> io::Result<()> {
    match r {
        Ok(e) => a.state(b"answer=0 state=", e),
        Err(n) => a.refusal(n),
    }
}

// A value and the state behind it.
fn value(a: &mut Answer<'_, impl Print>, v: u32, e: Engine) -> io::Result<()> {
    a.form(b"answer=0 value=$0", &[u64::from(v)])?;
    a.state(b" state=", e)
}

fn bins(a: &mut Answer<'_, impl Print>, r: Bins) -> io::Result<()> {
    match r {
        Ok(ReadBins { value: v, state: e }) => value(a, v, e),
        Err(n) => a.refusal(n),
    }
}

fn decision(a: &mut Answer<'_, impl Print>, r: Decision) -> io::Result<()> {
    match r {
        Ok(
            DecidedBin {
                bin: bin,
                context: context,
                state: e,
            },
        ) => {
            value(a, u32::from(bin), e)?;
            a.form(b" context=$0", &[u64::from(context)])
        }
        Err(n) => a.refusal(n),
    }
}

// The rest is given out by an entry point of its own: what stands behind the byte place, and nothing at a refusal.
fn aligned(a: &mut Answer<'_, impl Print>, bytes: &[u8], left: &[u8], r: State) -> io::Result<()> {
    match r {
        Ok(e) => {
            let from = e.position.0 / 8;
            a.form(b"answer=0 rest=$0", &[from as u64])?;
            a.state(b" state=", e)?;
            a.unless(part(bytes, from, bytes.len()) == left, b" rest=differs")
        }
        Err(n) => {
            a.refusal(n)?;
            a.unless(left.is_empty(), b" rest=given")
        }
    }
}

pub fn answered(
    a: &mut Answer<'_, impl Print>,
    entry: Entry,
    bytes: &[u8],
    e: Engine,
    n: &Numbers,
) -> io::Result<()> {
    match entry {
        Entry::Decision => decision(a, decode_bin(bytes, e, n.context)),
        Entry::Bypass => bins(a, decode_bypass_bits(bytes, e, n.count)),
        Entry::Single => bins(a, decode_bypass(bytes, e)),
        Entry::Raw => bins(a, read_bits(bytes, e, n.count)),
        Entry::Terminate => bins(a, decode_terminate(bytes, e)),
        Entry::Align => aligned(a, bytes, rest(bytes, e), byte_align(bytes, e)),
        Entry::Restart => ready(a, restart(bytes, e)),
        Entry::AlignBypass => ready(a, align_bypass(bytes, e)),
    }
}
