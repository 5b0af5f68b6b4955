// What is refused of payload and state, in document 01's order.
ghost use Rattle.std.specs.Prelude.{◌≡◌, ◌-◌, ◌≤◌, length};
ghost use Rattle.cabac.specs.Numbers.{◌or_else◌, checked, payload_refusal, state_refusal, count_refusal};
ghost use Rattle.cabac.specs.Entries as entries;

use bins::places::end_of;
use bins::state::Engine;

pub fn payload_refusal(bytes: &[u8]) -> u32
    ensures { result ≡ payload_refusal bytes.now }
{
    if bytes.len() < 2 {
        return 1;
    }
    if 16777216 < bytes.len() {
        return 2;
    }
    0
}

pub fn state_refusal(bytes: &[u8], e: Engine) -> u32
    requires { length bytes.now ≤ 16777216 }
    ensures { result ≡ state_refusal bytes.now e }
{
    let at = e.position.0;
    let end = end_of(bytes);
    if end.0 < at {
        return 3;
    }
    if 65535 < e.past {
        return 3;
    }
    if e.ended {
        return 0;
    }
    if e.range < 256 {
        return 3;
    }
    if 510 < e.range {
        return 3;
    }
    if e.range <= e.offset {
        return 3;
    }
    0
}

// 0 refuses nothing, and every other number is handed up by `?`.
pub fn passed(number: u32) -> Result<(), u32>
    ensures { result ≡ checked number }
{
    if number == 0 { Ok(()) } else { Err(number) }
}

// 1, 2, 3
pub fn check_state(bytes: &[u8], e: Engine) -> Result<(), u32>
    ensures { result ≡ checked (payload_refusal bytes.now or_else state_refusal bytes.now e) }
{
    passed(payload_refusal(bytes))?;
    passed(state_refusal(bytes, e))
}

// 1, 2, 4, 3
pub fn check_count(bytes: &[u8], e: Engine, count: u32) -> Result<(), u32>
    ensures { result ≡ checked (payload_refusal bytes.now or_else count_refusal count or_else state_refusal bytes.now e) }
{
    passed(payload_refusal(bytes))?;
    if 32 < count {
        return Err(4);
    }
    passed(state_refusal(bytes, e))
}
