// A block by a decoder that holds a reference to its payload: the decoder is taken apart, and the entry point is called on payload and state.
ghost use Rattle.std.specs.Prelude.{◌≡◌};
ghost use Rattle.hevc_residual.specs.Entries.{read_payload};
ghost use Rattle.hevc_residual.specs.Answers.{payload_read};

use bins::state::Engine;
use bins::tags::CONTEXTS;
use cabac_decoder::decoder::Decoder;
use hevc_reader::entries;
use hevc_residual::answers::Read;
use hevc_residual::params::Params;

// One block by a decoder, as the Rust's `residual_coding`.
pub fn residual_coding<'a>(
    decoder: Decoder<'a>,
    contexts: &mut [u8; CONTEXTS],
    stats: &mut [u8; 4],
    p: Params,
    block: &mut [i32],
) -> Read
    ensures { payload_read result contexts.new stats.new block.new ≡ read_payload decoder.entry.payload.now decoder.entry.state contexts.old stats.old p block.old }
{
    entries::residual_coding(decoder.payload, decoder.state, contexts, stats, p, block)
}

// One block through a decoder made for it: whoever calls this needs to know no decoder.
pub fn block_through(
    payload: &[u8],
    state: Engine,
    contexts: &mut [u8; CONTEXTS],
    stats: &mut [u8; 4],
    p: Params,
    block: &mut [i32],
) -> Read
    ensures { payload_read result contexts.new stats.new block.new ≡ read_payload payload.now state contexts.old stats.old p block.old }
{
    residual_coding(Decoder::new(payload, state), contexts, stats, p, block)
}
