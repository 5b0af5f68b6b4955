// A state and parameters as C has them: a flag is a byte, and one above 1 is answered by 4.
ghost use Rattle.std.specs.Prelude.{◌≡◌, ltb};
ghost use Rattle.bins.specs.Engine.{bit_no};
ghost use Rattle.cabac.specs.Numbers.{◌or_else◌, payload_refusal};
ghost use Rattle.bulmegart.specs.Records.{flag_refusal, state_flags, params_flags, engine_of, state_of, params_of, rdpcm_no};

use bins::places::BitPlace;
use bins::state::Engine;
use cabac_checks::checks::payload_refusal;
use hevc_residual::params::{Params, Rdpcm};

// The engine's state between calls.
#[repr(C)]
#[derive(Clone, Copy)]
pub struct EngineState {
    pub range: u32,
    pub offset: u32,
    pub position: usize, // a bit place
    pub ended: u8,
    pub past: u32, // bits past the end
}

// What the slice and the coding unit have settled before the block.
#[repr(C)]
#[derive(Clone, Copy)]
pub struct BlockParams {
    pub log2: u32,
    pub scan: u32,
    pub depth: u32,
    pub luma: u8,
    pub hiding: u8,
    pub skip_allowed: u8,
    pub lossless: u8,
    pub persistent: u8,
    pub skip_context: u8,
    pub explicit_rdpcm: u8,
    pub implicit_rdpcm: u8,
    pub inter: u8,
    pub aligning: u8,
    pub extended: u8,
}

pub fn is_set(flag: u8) -> bool
    ensures { result ≡ ltb 0 flag }
{
    0 < flag
}

pub fn flag_byte(flag: bool) -> u8
    ensures { result ≡ bit_no flag }
{
    if flag { 1 } else { 0 }
}

// 4 above 1
pub fn flag_refusal(flag: u8) -> u32
    ensures { result ≡ flag_refusal flag }
{
    if 1 < flag { 4 } else { 0 }
}

// The first of two numbers that is given.
pub fn or_else(a: u32, b: u32) -> u32
    ensures { result ≡ a or_else b }
{
    if a == 0 { b } else { a }
}

pub fn state_flags(s: EngineState) -> u32
    ensures { result ≡ state_flags s }
{
    flag_refusal(s.ended)
}

pub fn params_flags(p: BlockParams) -> u32
    ensures { result ≡ params_flags p }
{
    let last = flag_refusal(p.extended);
    let from_aligning = or_else(flag_refusal(p.aligning), last);
    let from_inter = or_else(flag_refusal(p.inter), from_aligning);
    let from_implicit_rdpcm = or_else(flag_refusal(p.implicit_rdpcm), from_inter);
    let from_explicit_rdpcm = or_else(flag_refusal(p.explicit_rdpcm), from_implicit_rdpcm);
    let from_skip_context = or_else(flag_refusal(p.skip_context), from_explicit_rdpcm);
    let from_persistent = or_else(flag_refusal(p.persistent), from_skip_context);
    let from_lossless = or_else(flag_refusal(p.lossless), from_persistent);
    let from_skip_allowed = or_else(flag_refusal(p.skip_allowed), from_lossless);
    let from_hiding = or_else(flag_refusal(p.hiding), from_skip_allowed);
    or_else(flag_refusal(p.luma), from_hiding)
}

// 1, 2, 4
pub fn state_handed(payload: &[u8], s: EngineState) -> u32
    ensures { result ≡ payload_refusal payload.now or_else state_flags s }
{
    or_else(payload_refusal(payload), state_flags(s))
}

// 1, 2, 4
pub fn block_handed(payload: &[u8], s: EngineState, p: BlockParams) -> u32
    ensures { result ≡ payload_refusal payload.now or_else state_flags s or_else params_flags p }
{
    or_else(
        payload_refusal(payload),
        or_else(state_flags(s), params_flags(p)),
    )
}

impl From<EngineState> for Engine {
    ghost from_gives = { λ s e. e ≡ engine_of s };

    fn from(s: EngineState) -> Engine {
        Engine {
            range: s.range,
            offset: s.offset,
            position: BitPlace(s.position),
            ended: is_set(s.ended),
            past: s.past,
        }
    }
}

impl From<Engine> for EngineState {
    ghost from_gives = { λ e s. s ≡ state_of e };

    fn from(e: Engine) -> EngineState {
        EngineState {
            range: e.range,
            offset: e.offset,
            position: e.position.0,
            ended: flag_byte(e.ended),
            past: e.past,
        }
    }
}

impl From<BlockParams> for Params {
    ghost from_gives = { λ p q. q ≡ params_of p };

    fn from(p: BlockParams) -> Params {
        Params {
            log2: p.log2,
            luma: is_set(p.luma),
            scan: p.scan,
            depth: p.depth,
            hiding: is_set(p.hiding),
            skip_allowed: is_set(p.skip_allowed),
            lossless: is_set(p.lossless),
            persistent: is_set(p.persistent),
            skip_context: is_set(p.skip_context),
            explicit_rdpcm: is_set(p.explicit_rdpcm),
            implicit_rdpcm: is_set(p.implicit_rdpcm),
            inter: is_set(p.inter),
            aligning: is_set(p.aligning),
            extended: is_set(p.extended),
        }
    }
}

// 0 none, 1 direction 0, 2 direction 1
pub fn rdpcm_number(r: Rdpcm) -> u8
    ensures { result ≡ rdpcm_no r }
{
    r as u8
}
