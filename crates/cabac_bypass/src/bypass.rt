// Bypass bins and raw bits, over payload and state.
ghost use Rattle.std.specs.Prelude.{◌≡◌};
ghost use Rattle.cabac.specs.Entries.{bins_say};
ghost use Rattle.cabac.specs.Entries as entries;

use bins::state::Engine;
use bits::fetch::fetch;
use cabac::answers::{Bins, ReadBins};
use cabac_checks::checks::{check_count, check_state};
use cabac_state::engine::{behind, bins_of, open};
use payload_bypass::bypass;

// One bypass bin.
pub fn decode_bypass(bytes: &[u8], e: Engine) -> Bins
    ensures { bins_say result ≡ entries.bypass_bits bytes.now e 1 }
{
    check_state(bytes, e)?;
    if e.ended {
        return Err(6);
    }
    let t = bypass::bypass_one(bytes, open(e));
    bins_of(bytes, e, t)
}

// Bypass bins, 0 to 32 of them.
pub fn decode_bypass_bits(bytes: &[u8], e: Engine, count: u32) -> Bins
    ensures { bins_say result ≡ entries.bypass_bits bytes.now e count }
{
    check_count(bytes, e, count)?;
    if e.ended {
        return Err(6);
    }
    let t = bypass::bypass_bits(bytes, open(e), count);
    bins_of(bytes, e, t)
}

// Raw bits, 0 to 32 of them, in any phase: range and offset stay.
pub fn read_bits(bytes: &[u8], e: Engine, count: u32) -> Bins
    ensures { bins_say result ≡ entries.raw bytes.now e count }
{
    check_count(bytes, e, count)?;
    let at = e.position;
    let drawn = fetch(bytes, at, count);
    let value = drawn.bits;
    let state = behind(bytes, e, e.range, e.offset, drawn);
    Ok(ReadBins { value, state })
}
