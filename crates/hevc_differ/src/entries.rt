// Two payloads, read from one state: can the block depend on what differs between them? It takes anything and changes nothing.
ghost use Rattle.std.specs.Prelude.{◌≡◌};
ghost use Rattle.hevc_differ.specs.Judgement.{judgement};

use bins::state::Engine;
use bins::tags::CONTEXTS;
use cabac_checks::checks::payload_refusal;
use differs::payloads::first_difference;
use hevc_payload_checks::checks::payload_checks;
use hevc_reached::entries::reached;
use hevc_residual::params::Params;

#[derive(Clone, Copy)]
pub enum Judgement {
    // A check refuses the first call by this number: no bit behind the start is drawn, and the theorem does not speak.
    Unread(u32),
    // The second payload is refused by this number.
    Unreadable(u32),
    // The first call draws so many bits past the end of its payload: the theorem does not speak.
    Past(u32),
    // The payloads differ from this bit on, and the first call draws the bits before the second place.
    Here(usize, usize),
    // The same, but it draws none of those that differ: the second call gives the same.
    Never(usize, usize),
}

pub fn judge(
    first: &[u8],
    second: &[u8],
    e: Engine,
    contexts: &[u8; CONTEXTS],
    stats: &[u8; 4],
    p: Params,
    block: &[i32],
) -> Judgement
    ensures { result ≡ judgement first.now second.now e contexts.now stats.now p block.now }
{
    let n = payload_checks(first, e, contexts, stats, p, block);
    if n != 0 {
        return Judgement::Unread(n);
    }
    let m = payload_refusal(second);
    if m != 0 {
        return Judgement::Unreadable(m);
    }
    let r = reached(first, e, contexts, stats, p, block);
    if r.past != 0 {
        return Judgement::Past(r.past);
    }
    let d = first_difference(first, second);
    let state = r.state;
    let place = state.position.0;
    if d < place {
        return Judgement::Here(d, place);
    }
    Judgement::Never(d, place)
}
