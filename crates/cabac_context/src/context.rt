// A context that is lent: a decision reads its packed byte, and stores the next one.
ghost use Rattle.std.specs.Prelude.{◌≡◌};
ghost use Rattle.cabac_context.specs.Lent.{lent_says, on_lent};

use bins::state::Engine;
use cabac_bins::decode;

// One context: probability state and most probable bin in a byte.
#[derive(Clone, Copy)]
pub struct CtxModel {
    pub packed: u8,
}

// A bin with the state behind it.
#[derive(Clone, Copy)]
pub struct ReadBit {
    pub bin: bool,
    pub state: Engine,
}

// A bin, or the number of the refusal.
pub type Bit = Result<ReadBit, u32>;

// What is answered, and what is stored.
#[derive(Clone, Copy)]
pub struct Turn {
    pub packed: u8,
    pub bit: Bit,
}

// The decision by value; a refusal keeps the packed byte.
pub fn decide(bytes: &[u8], e: Engine, packed: u8) -> Turn
    ensures { lent_says result.bit result.packed ≡ on_lent bytes.now e packed }
{
    match decode::decode_bin(bytes, e, packed) {
        Ok(d) => Turn {
            packed: d.context,
            bit: Ok(ReadBit {
                bin: d.bin,
                state: d.state,
            }),
        },
        Err(n) => Turn {
            packed,
            bit: Err(n),
        },
    }
}

// One decision on the lent context.
pub fn decode_bin(bytes: &[u8], e: Engine, context: &mut CtxModel) -> Bit
    ensures { lent_says result context.new.packed ≡ on_lent bytes.now e context.old.packed }
{
    let t = decide(bytes, e, context.packed);
    context.packed = t.packed;
    t.bit
}
