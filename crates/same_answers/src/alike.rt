// Whether two readings of a block leave the same behind.
ghost use Rattle.std.specs.Prelude.{◌≡◌, true};
ghost use Rattle.same_answers.specs.Alike.{same_found, same_state, same_answer};

use bins::state::Engine;
use bins::tags::CONTEXTS;
use hevc_residual::answers::{Found, Read};

fn same_found(a: Found, b: Found) -> bool
    ensures { result ≡ same_found a b }
{
    a == b
}

fn same_state(a: Engine, b: Engine) -> bool
    ensures { result ≡ same_state a b }
{
    a == b
}

// Yes where the answers are equal, and only there: specs/Alike.antt, `answer_yes` and `answer_same`.
pub fn same_answer(a: Read, b: Read) -> bool
    ensures { result ≡ same_answer a b }
{
    match (a, b) {
        (Ok(one), Ok(other)) => same_found(one.found, other.found)
            & same_state(one.state, other.state),
        (Err(n), Err(m)) => n == m,
        _ => false,
    }
}

pub fn same_contexts(a: &[u8; CONTEXTS], b: &[u8; CONTEXTS]) -> bool
    ensures { (result ≡ true → a.now ≡ b.now) × (a.now ≡ b.now → result ≡ true) }
{
    a == b
}

pub fn same_statistics(a: &[u8; 4], b: &[u8; 4]) -> bool
    ensures { (result ≡ true → a.now ≡ b.now) × (a.now ≡ b.now → result ≡ true) }
{
    a == b
}

// Two lists of levels: as long as each other, and the same at every place.
#[tactic(auto, using(crate::proofs::Levels::levels_equal))]
fn same_values(one: &[i32], other: &[i32]) -> bool
    ensures { (result ≡ true → one.now ≡ other.now) × (one.now ≡ other.now → result ≡ true) }
{
    one == other
}

pub fn same_levels(a: &[i32; 64], b: &[i32; 64]) -> bool
    ensures { (result ≡ true → a.now ≡ b.now) × (a.now ≡ b.now → result ≡ true) }
{
    same_values(a, b)
}
