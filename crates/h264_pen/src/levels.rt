// The levels at the significant places, from the highest.
ghost use Rattle.std.specs.Prelude.{◌≡◌, true, cond, List, ◌∷◌, ℕ, suc, ◌-◌, ◌<◌, ltb, set, ℤ, nat_abs};
ghost use Rattle.trees.specs.Levels.{negative, in_range};
ghost use Rattle.pen.specs.Sheet.{sheet, Wrote};
ghost use Rattle.h264_block.specs.Block.{level_at, levels_s};
ghost use Rattle.h264_block.specs.Writable.{Writable};
ghost use Rattle.h264_pen.specs.LevelPuts.{LevelsPut, BlockPut};

use crate::magnitude::put_magnitude;
use crate::places::{last_place, put_places};
use level_sizes::sizes::{is_negative, magnitude};
use pen::room::{Pen, put_bypass};

// One level, behind so many magnitudes of 1 and so many above 1.
fn put_level(room: &mut [u8], pen: Pen, ones: u32, bigs: u32, level: i32) -> Pen
    requires { (0 < nat_abs level) × (in_range 15 (negative level) (nat_abs level) ≡ true) }
    ensures { (w : List ℤ) (k : ℕ) (ks : List ℕ) (l : List ℤ) → level_at w k ≡ level → Wrote (levels_s (k ∷ ks) ones bigs l) (levels_s ks (cond (ltb 0 (nat_abs level - 1)) ones (suc ones)) (cond (ltb 0 (nat_abs level - 1)) (suc bigs) bigs) (set l k level)) w (sheet room.old pen) (sheet room.new result) }
{
    let y = put_magnitude(room, pen, ones, bigs, magnitude(level) - 1);
    put_bypass(room, y, is_negative(level))
}

pub fn put_levels(room: &mut [u8], pen: Pen, levels: &[i32]) -> Pen
    requires { Writable levels.now }
    ensures { LevelsPut levels.now (sheet room.old pen) (sheet room.new result) }
{
    let mut y = pen;
    let mut ones: u32 = 0;
    let mut bigs: u32 = 0;
    for k in (0..16).rev() {
        let m = magnitude(levels[k]);
        if 0 < m {
            y = put_level(room, y, ones, bigs, levels[k]);
            if 1 < m {
                bigs += 1;
            } else {
                ones += 1;
            }
        }
    }
    y
}

// The whole block.
pub fn put_block(room: &mut [u8], pen: Pen, levels: &[i32]) -> Pen
    requires { Writable levels.now }
    ensures { BlockPut levels.now (sheet room.old pen) (sheet room.new result) }
{
    let last = last_place(levels);
    let y = put_places(room, pen, levels, last);
    put_levels(room, y, levels)
}
