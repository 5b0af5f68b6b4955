// The text of an answer as it comes about, piece by piece.
use bins::state::Engine;
use octet_scan::find;
use std::io;
use text::lines::part;
use text::write;
use text_room::put_decimal;

// It is written, or held against the text that a record wants.
#[derive(Clone, Copy)]
pub enum Answer<'a, P> {
    Shown(&'a P),
    // what is wanted behind the pieces so far
    Wanted(&'a [u8]),
    // a piece was another one
    Other,
}

// Why there is none.
#[derive(Drop)]
pub enum Fault {
    // a value is missing, or one that its key cannot have
    NoRecord,
    Unwritten(io::Error),
}

impl From<io::Error> for Fault {
    fn from(e: io::Error) -> Fault {
        Fault::Unwritten(e)
    }
}

// The number that a digit of a form names.
fn number_of(digit: u8, n: &[u64]) -> u64 {
    let k = (digit % 8) as usize;
    n.get(k).copied().unwrap_or(0)
}

fn glyph(digit: u8) -> u8 {
    if digit < 10 {
        return b'0' + digit;
    }
    if digit < 16 {
        return b'W' + digit;
    }
    b'?'
}

impl<'a, P: Print> Answer<'a, P> {
    // Held against what a text has from a place on.
    pub fn wanted(text: &'a [u8], from: usize) -> Answer<'a, P> {
        match text.get(from..) {
            Some(wanted) => Answer::Wanted(wanted),
            None => Answer::Other,
        }
    }

    pub fn is_wanted(&self) -> bool {
        match self {
            Answer::Wanted(left) => left.is_empty(),
            _ => false,
        }
    }

    pub fn text(&mut self, piece: &[u8]) -> io::Result<()> {
        match *self {
            Answer::Shown(out) => write::text(out, piece)?,
            Answer::Wanted(wanted) => {
                *self = match wanted.strip_prefix(piece) {
                    Some(left) => Answer::Wanted(left),
                    None => Answer::Other,
                };
            }
            Answer::Other => {}
        }
        Ok(())
    }

    pub fn decimal(&mut self, n: u64) -> io::Result<()> {
        let mut digits = [0u8; 20];
        let k = put_decimal(n, &mut digits, 0);
        self.text(part(&digits, 0, k))
    }

    // A level or a scale: its sign and its magnitude.
    pub fn signed(&mut self, n: i32) -> io::Result<()> {
        if n < 0 {
            self.text(b"-")?;
        }
        self.decimal(write::magnitude(n))
    }

    // A form: its letters as they stand, and for each $ and the digit behind it the number that has this place.
    pub fn form(&mut self, f: &[u8], n: &[u64]) -> io::Result<()> {
        let mut i: usize = 0;
        while i < f.len() {
            let end = find(f, i, f.len(), b'$');
            self.text(part(f, i, end))?;
            if f.len() - end < 2 {
                return Ok(());
            }
            self.decimal(number_of(f[end + 1], n))?;
            i = end + 2;
        }
        Ok(())
    }

    // A number of the answer alone: of a refusal.
    pub fn refusal(&mut self, n: u32) -> io::Result<()> {
        self.text(b"answer=")?;
        self.decimal(u64::from(n))
    }

    // What must not be is said where it is, so that the answer is another one.
    pub fn unless(&mut self, right: bool, piece: &[u8]) -> io::Result<()> {
        if right { Ok(()) } else { self.text(piece) }
    }

    fn octet(&mut self, b: u8) -> io::Result<()> {
        self.text(&[glyph(b / 16), glyph(b % 16)])
    }

    // Bytes in hexadecimal.
    pub fn bytes(&mut self, s: &[u8]) -> io::Result<()> {
        for b in s {
            self.octet(*b)?;
        }
        Ok(())
    }

    // The place of an entry, behind a comma where it is not the first of those that begin at a place.
    pub fn place(&mut self, first: bool, n: usize) -> io::Result<()> {
        self.unless(first, b",")?;
        self.decimal(n as u64)?;
        self.text(b":")
    }

    // The contexts that are not what they were.
    pub fn changes<const N: usize>(&mut self, before: &[u8; N], after: &[u8; N]) -> io::Result<()> {
        self.text(b" changes=")?;
        let mut none = true;
        for (i, (old, new)) in before.iter().zip(after).enumerate() {
            if old != new {
                self.place(none, i)?;
                self.octet(*new)?;
                none = false;
            }
        }
        self.unless(!none, b"-")
    }

    // A state behind a key.
    pub fn state(&mut self, key: &[u8], e: Engine) -> io::Result<()> {
        self.text(key)?;
        let n = [
            u64::from(e.range),
            u64::from(e.offset),
            e.position.0 as u64,
            u64::from(e.ended),
            u64::from(e.past),
        ];
        self.form(b"$0,$1,$2,$3,$4", &n)
    }

    pub fn statistics(&mut self, s: &[u8; 4]) -> io::Result<()> {
        self.text(b" stats=")?;
        self.bytes(s)
    }
}
