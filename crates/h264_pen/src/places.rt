// The significant places of a block.
ghost use Rattle.std.specs.Prelude.{◌≡◌, Bool, false, cond, List, [], ◌∷◌, ℕ, suc, ◌<◌, eqb, ℤ};
ghost use Rattle.bins.specs.Syn.{done};
ghost use Rattle.pen.specs.Sheet.{sheet, Wrote};
ghost use Rattle.h264_block.specs.Block.{is_sig, sig_places, first_of, places_s};
ghost use Rattle.h264_block.specs.PlaceLaws.{Last};
ghost use Rattle.h264_block.specs.Writable.{Writable};

use level_sizes::sizes::magnitude;
use pen::room::{Pen, put_bin};

// The last place with a level.
pub fn last_place(levels: &[i32]) -> usize
    requires { Writable levels.now }
    ensures { Last levels.now result }
{
    for k in (0..16).rev() {
        if 0 < magnitude(levels[k]) {
            return k;
        }
    }
    0
}

// The flags of a place before the last.
fn put_place(room: &mut [u8], pen: Pen, k: usize, significant: bool) -> Pen
    requires { k < 15 }
    ensures { (w : List ℤ) (n : ℕ) (ks : List ℕ) → is_sig w k ≡ significant → eqb (first_of (sig_places w)) k ≡ false → Wrote (places_s (suc n) k ks) (places_s n (suc k) (cond significant (k ∷ ks) ks)) w (sheet room.old pen) (sheet room.new result) }
{
    let y = put_bin(room, pen, k, significant);
    if significant {
        return put_bin(room, y, 15 + k, false);
    }
    y
}

// Flags up to the last place; place 15 has none.
pub fn put_places(room: &mut [u8], pen: Pen, levels: &[i32], last: usize) -> Pen
    requires { Writable levels.now × Last levels.now last }
    ensures { Wrote (places_s 15 0 []) (done (sig_places levels.now)) levels.now (sheet room.old pen) (sheet room.new result) }
{
    let mut y = pen;
    for k in 0..last {
        y = put_place(room, y, k, 0 < magnitude(levels[k]));
    }
    if last < 15 {
        let z = put_bin(room, y, last, true);
        return put_bin(room, z, 15 + last, true);
    }
    y
}
