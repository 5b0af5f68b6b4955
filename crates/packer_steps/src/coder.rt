// A bin on the interval, before its bytes go out.
ghost use Rattle.std.specs.Prelude.{◌≡◌, cond, ◌+◌, ◌≤◌, ◌<◌, eqb};
ghost use Rattle.tables.specs.Decisions.{decisions};
ghost use Rattle.packing.specs.Pack.{widened, encoded, bypass_enc, align_enc, favoured, ctx_after};
ghost use Rattle.packer_steps.specs.Register.{register_of, Steady};

// low has so many bits below the bytes that are done, and one more for a carry; at counts the bytes.
#[derive(Clone, Copy)]
pub struct Coder {
    pub low: u32,
    pub range: u32,
    pub bits: u32,
    pub at: usize,
}

fn pick(first: bool, a: u32, b: u32) -> u32
    ensures { result ≡ cond first a b }
{
    if first { a } else { b }
}

// RenormE, all its shifts at once: the range has nine bits again.
fn widen(c: Coder, low: u32, range: u32) -> Coder
    requires { Steady c × (0 < range) × (low + range ≤ c.low + c.range) × (range ≤ 510) }
    ensures { (register_of result ≡ widened low range (c.bits + 1)) × (result.at ≡ c.at) }
{
    let shift = u32::leading_zeros(range) - 23;
    Coder {
        low: low << shift,
        range: range << shift,
        bits: c.bits + shift,
        ..c
    }
}

// EncodeDecision, on a lent context.
pub fn decision(table: &[u32; 512], ctx: &mut u8, c: Coder, bin: u32) -> Coder
    requires { Steady c × (ctx.old < 128) × (bin ≤ 1) × (table.now ≡ decisions) }
    ensures { (register_of result ≡ encoded (favoured ctx.old (eqb bin 1)) ctx.old (register_of c)) × (ctx.new ≡ ctx_after (favoured ctx.old (eqb bin 1)) ctx.old) × (result.at ≡ c.at) }
{
    let packed = *ctx;
    let range = c.range;
    let entry = table[packed as usize * 4 + (range / 64 % 4) as usize];
    let lps = entry % 256;
    let less = range - lps;
    let likely = bin == (packed / 64) as u32;
    let next = pick(likely, entry / 256 % 256, entry / 65536);
    let below = pick(likely, 0, less);
    let left = pick(likely, less, lps);
    *ctx = next as u8;
    widen(c, c.low + below, left)
}

// EncodeBypass.
pub fn bypass(c: Coder, bin: u32) -> Coder
    requires { Steady c × (bin ≤ 1) }
    ensures { (register_of result ≡ bypass_enc (eqb bin 1) (register_of c)) × (result.at ≡ c.at) }
{
    Coder {
        low: c.low * 2 + bin * c.range,
        bits: c.bits + 1,
        ..c
    }
}

// An alignment entry.
pub fn align(c: Coder) -> Coder
    ensures { (register_of result ≡ align_enc (register_of c)) × (result.at ≡ c.at) }
{
    Coder { range: 256, ..c }
}
