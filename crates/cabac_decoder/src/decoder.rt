// A decoder that holds a reference to its payload, beside the engine's state.
// Each method takes it apart and calls the entry point on payload and state; the answer has the state behind it, for the next decoder.
ghost use Rattle.std.specs.Prelude.{◌≡◌};
ghost use Rattle.cabac.specs.Entries.{state_says, bins_say, bypass_bits, terminate, align_bypass, byte_align, rest_of};
ghost use Rattle.cabac_context.specs.Lent.{lent_says, on_lent};

use bins::state::Engine;
use cabac::answers::{Bins, State};
use cabac_align::align;
use cabac_bins::decode;
use cabac_bypass::bypass;
use cabac_context::context;
use cabac_context::context::{Bit, CtxModel};

#[derive(Clone, Copy)]
pub struct Decoder<'a> {
    pub payload: &'a [u8],
    pub state: Engine,
}

impl<'a> Decoder<'a> {
    // The payload with a state of it, as `start` or a step answered it.
    pub fn new(payload: &'a [u8], state: Engine) -> Decoder<'a>
        ensures { (result.payload ≡ payload.entry) × (result.state ≡ state) }
    {
        Decoder { payload, state }
    }

    // One bypass bin.
    pub fn decode_bypass(self) -> Bins
        ensures { bins_say result ≡ bypass_bits self.entry.payload.now self.entry.state 1 }
    {
        bypass::decode_bypass(self.payload, self.state)
    }

    // Bypass bins, 0 to 32 of them.
    pub fn decode_bypass_bits(self, count: u32) -> Bins
        ensures { bins_say result ≡ bypass_bits self.entry.payload.now self.entry.state count }
    {
        bypass::decode_bypass_bits(self.payload, self.state, count)
    }

    // Terminate: 1 ends the engine.
    pub fn decode_terminate(self) -> Bins
        ensures { bins_say result ≡ terminate self.entry.payload.now self.entry.state }
    {
        decode::decode_terminate(self.payload, self.state)
    }

    // The range becomes 256, as before escape data.
    pub fn align_bypass(self) -> State
        ensures { state_says result ≡ align_bypass self.entry.payload.now self.entry.state }
    {
        align::align_bypass(self.payload, self.state)
    }

    // The position rounded up to a whole byte.
    pub fn byte_align(self) -> State
        ensures { state_says result ≡ byte_align self.entry.payload.now self.entry.state }
    {
        align::byte_align(self.payload, self.state)
    }

    // The rest of the payload behind byte alignment; empty where byte alignment refuses.
    pub fn rest(self) -> &'a [u8]
        ensures { result.now ≡ rest_of self.entry.payload.now self.entry.state }
    {
        align::rest(self.payload, self.state)
    }

    // One decision on the lent context.
    pub fn decode_bin(self, context: &mut CtxModel) -> Bit
        ensures { lent_says result context.new.packed ≡ on_lent self.entry.payload.now self.entry.state context.old.packed }
    {
        context::decode_bin(self.payload, self.state, context)
    }
}
