// sig_coeff_flag: the significant places of a sub-block, highest first.
ghost use Rattle.std.specs.Prelude.{ℕ, ◌+◌, ◌≤◌, ◌<◌, ℤ};
ghost use Rattle.bins.specs.Syn.{done};
ghost use Rattle.bins.specs.Tags.{context_count};
ghost use Rattle.hevc_residual.specs.Wanted.{Wanted};
ghost use Rattle.hevc_residual.specs.SubBlock.{places_s};
ghost use Rattle.hevc_places.specs.Packing.{Packs, unpacked};
ghost use Rattle.hevc_places.specs.PlacesAgree.{number_at};
ghost use Rattle.pen.specs.Sheet.{sheet, Wrote};
ghost use Rattle.hevc_wanted.specs.Shown.{Shows};

use hevc_places::places::{Places, SigNumbers, appended, inferred, number_at};
use hevc_wanted::sub::is_level;
use pen::room::{Pen, put_bin};

#[derive(Clone, Copy)]
pub struct PutPlaces {
    pub places: Places,
    pub pen: Pen,
}

// The places below `below`, behind those met already. numbers has the places' context numbers, infer says that its lowest place may be inferred.
pub fn put_places(
    room: &mut [u8],
    pen: Pen,
    levels: &[i32; 16],
    numbers: SigNumbers,
    infer: bool,
    below: u32,
    met: Places,
) -> PutPlaces
    requires { Packs met × (met.count + below ≤ 16) × ((k : ℕ) → k < below → number_at numbers k < context_count) }
    ensures { Packs result.places × ((lv : ℕ → Wanted → ℤ) (w : Wanted) → Shows lv w levels.now → Wrote (places_s lv (number_at numbers) infer below (unpacked met)) (done (unpacked result.places)) w (sheet room.old pen) (sheet room.new result.pen)) }
{
    let mut s = met;
    let mut y = pen;
    for k in (0..below).rev() {
        if inferred(k, infer, s.count) {
            return PutPlaces {
                places: Places {
                    packed: 0,
                    count: 1,
                },
                pen: y,
            };
        }
        let number = number_at(numbers, k);
        let b = is_level(levels[k as usize]);
        y = put_bin(room, y, number, b == 1);
        s = appended(s, k, b);
    }
    PutPlaces { places: s, pen: y }
}
