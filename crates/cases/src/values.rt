// Records of initialisation.
//
//     init values q => answer ctx
//     initvalue value [q] => context: without a quantiser what each of 0 to 255 gives
use bins::tags::CONTEXTS;
use cabac_init::contexts::{init, init_contexts};
use case_text::answer::Answer;
use std::io;

// Contexts and statistics hold something else before: an initialisation sets all of them, a refusal none.
pub fn contexts(a: &mut Answer<'_, impl Print>, values: &[u8], q: u8) -> io::Result<()> {
    let mut contexts = [7u8; CONTEXTS];
    let mut stats = [9u8; 4];
    match init_contexts(&mut contexts, &mut stats, values, q) {
        0 => {
            a.text(b"answer=0 ctx=")?;
            a.bytes(&contexts)?;
            a.unless(stats == [0u8; 4], b" stats=differ")
        }
        n => {
            a.refusal(n)?;
            let untouched = (contexts == [7u8; CONTEXTS]) & (stats == [9u8; 4]);
            a.unless(untouched, b" ctx=changed")
        }
    }
}

// Whether every quantiser gives the value this context.
fn is_at_every(v: u8, c: u8) -> bool {
    (0..=u8::MAX).all(|q| init(v, q) == c)
}

pub fn value(a: &mut Answer<'_, impl Print>, v: u8, q: Option<u8>) -> io::Result<()> {
    let c = init(v, q.unwrap_or(0));
    a.form(b"context=$0", &[u64::from(c)])?;
    match q {
        Some(_) => Ok(()),
        None => a.unless(is_at_every(v, c), b" at=differs"),
    }
}
