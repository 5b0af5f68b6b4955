// Initialisation of contexts.
ghost use Rattle.std.specs.Prelude.{◌≡◌};
ghost use Rattle.cabac.specs.Contexts.{initial};
ghost use Rattle.cabac.specs.Entries.{values_refusal, contexts_after, statistics_after};

use bins::tags::CONTEXTS;

// The packed context of one value.
#[unsafe(no_mangle)]
pub extern "C" fn bulmegart_init(value: u8, qp: u8) -> u8
    ensures { result ≡ initial value qp }
{
    bulmegart_contexts::contexts::bulmegart_init(value, qp)
}

// The lent contexts from the lent values; the statistics become 0.
#[unsafe(no_mangle)]
pub extern "C" fn bulmegart_init_contexts(
    contexts: &mut [u8; CONTEXTS],
    statistics: &mut [u8; 4],
    values: &[u8],
    qp: u8,
) -> u32
    ensures { (result ≡ values_refusal values.now) × (contexts.new ≡ contexts_after result contexts.old values.now qp) × (statistics.new ≡ statistics_after result statistics.old) }
{
    bulmegart_contexts::contexts::bulmegart_init_contexts(contexts, statistics, values, qp)
}
