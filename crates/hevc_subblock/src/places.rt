// sig_coeff_flag: the significant places of a sub-block, highest first.
ghost use Rattle.bins.specs.Tags.{context_count};
ghost use Rattle.std.specs.Prelude.{◌≡◌, ℕ, ◌+◌, ◌≤◌, ◌<◌, ℤ};
ghost use Rattle.tables.specs.Decisions.{decisions};
ghost use Rattle.hevc_residual.specs.Wanted.{Wanted};
ghost use Rattle.hevc_residual.specs.SubBlock.{places_s};
ghost use Rattle.hevc_elements.specs.Agree.{Reads, from};
ghost use Rattle.hevc_places.specs.Packing.{Packs, unpacked};
ghost use Rattle.hevc_places.specs.PlacesAgree.{number_at};
ghost use Rattle.hevc_subblock.specs.PlacesAgree.{SaysPlaces};

use bins::state::{Interval, Refusal, Taken};
use bins::tags::CONTEXTS;
use hevc_elements::shapes::context_bin;
use hevc_places::places::{Places, SigNumbers, appended, inferred, number_at};

// The places met, and the state behind them.
#[derive(Clone, Copy)]
pub struct Placed {
    pub places: Places,
    pub next: Interval,
}

// The places below `below`, behind those met already. What is lent is apart, since each function over a struct that held it would be walked by hand;
// numbers has the places' context numbers, infer says that place 0 may go without a bin.
pub fn significance(
    list: bool,
    table: &[u32; 512],
    contexts: &mut [u8; CONTEXTS],
    bytes: &[u8],
    numbers: SigNumbers,
    infer: bool,
    below: u32,
    met: Places,
    x: Interval,
) -> Result<Placed, Refusal>
    requires { Reads list bytes.now x contexts.old × (table.now ≡ decisions) × Packs met × (met.count + below ≤ 16) × ((k : ℕ) → k < below → number_at numbers k < context_count) }
    ensures { (lv : ℕ → Wanted → ℤ) → SaysPlaces result contexts.new (from list bytes.now (places_s lv (number_at numbers) infer below (unpacked met)) x contexts.old) }
{
    let mut s = met;
    let mut y = x;
    for k in (0..below).rev() {
        if inferred(k, infer, s.count) {
            return Ok(Placed {
                places: Places {
                    packed: 0,
                    count: 1,
                },
                next: y,
            });
        }
        let number = number_at(numbers, k);
        let Taken { value: b, next } = context_bin(list, table, contexts, number, bytes, y)?;
        s = appended(s, k, b);
        y = next;
    }
    Ok(Placed { places: s, next: y })
}
