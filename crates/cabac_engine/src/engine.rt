// Start and restart of the arithmetic engine (H.265 9.3.2.5): the entry points over a payload and a state.
// Each takes anything: what document 01 does not accept is answered by its number, and the caller's state stands.
ghost use Rattle.std.specs.Prelude.{◌≡◌};
ghost use Rattle.cabac.specs.Entries.{state_says};
ghost use Rattle.cabac.specs.Entries as entries;

use bins::places::{BitPlace, aligned, first_bit};
use bins::state::Engine;
use cabac::answers::State;
use cabac_checks::checks::{check_state, passed, payload_refusal};
use cabac_state::engine::started_at;

// Start: range 510, offset the first nine bits.
pub fn start(bytes: &[u8]) -> State
    ensures { state_says result ≡ entries.start bytes.now }
{
    passed(payload_refusal(bytes))?;
    let e = Engine {
        range: 510,
        offset: 0,
        position: BitPlace(0),
        ended: false,
        past: 0,
    };
    started_at(bytes, e)
}

// Restart: align, and start there. The total past the end is kept and added to, the ended mark cleared.
pub fn restart(bytes: &[u8], e: Engine) -> State
    ensures { state_says result ≡ entries.restart bytes.now e }
{
    check_state(bytes, e)?;
    let at = e.position;
    let byte = aligned(at);
    let place = first_bit(byte);
    let fresh = Engine {
        range: 510,
        offset: 0,
        position: place,
        ended: false,
        past: e.past,
    };
    started_at(bytes, fresh)
}
