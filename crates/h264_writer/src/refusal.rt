// What a writer refuses of 16 levels, in document 01's order: 9, 8.
ghost use Rattle.std.specs.Prelude.{◌≡◌, ◌≢◌, not, nat_abs, MatchResult};
ghost use Rattle.trees.specs.Levels.{negative, in_range, too_far};
ghost use Rattle.h264_block.specs.Refusal.{write_refusal};

use level_sizes::sizes::greatest;

// Outside −32768 to 32767.
fn is_far(v: i32) -> bool
    ensures { result ≡ not (in_range 15 (negative v) (nat_abs v)) }
{
    if v < -32768 {
        return true;
    }
    32767 < v
}

fn too_far(levels: &[i32]) -> bool
    ensures { result ≡ too_far 15 levels.now }
{
    levels.iter().any(|v| is_far(*v))
}

pub fn writable(levels: &[i32]) -> Result<(), u32>
    ensures { MatchResult result (λ _. write_refusal levels.now ≡ 0) (λ n. (n ≡ write_refusal levels.now) × (n ≢ 0)) }
{
    if greatest(levels) == 0 {
        return Err(9);
    }
    if too_far(levels) {
        return Err(8);
    }
    Ok(())
}
