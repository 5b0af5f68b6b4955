// The records of a tray, as its line gives them.
ghost use Rattle.std.specs.Prelude.{◌≤◌};

use case_text::given;
use octet_scan::find;
use text::lines::part;

// How many records a tray has at most: more than are accepted. As many rows are lent for what is found.
pub const ROWS: usize = 300;

// So many rows are given, from the first on.
#[derive(Drop)]
pub(crate) struct Records {
    pub(crate) rows: [[u8; 14]; ROWS],
    pub(crate) count: usize,
    ghost within: { count ≤ 300 },
}

// Numbers in the order in which a row has them: log2, scan and depth before the flags. None is above 255.
fn row_of(n: [u32; 14]) -> Option<[u8; 14]> {
    let ordered = [
        n[0], n[2], n[13], n[1], n[3], n[4], n[5], n[6], n[7], n[8], n[9], n[10], n[11], n[12],
    ];
    let mut row = [0u8; 14];
    for (octet, number) in row.iter_mut().zip(ordered) {
        *octet = u8::try_from(number).ok()?;
    }
    Some(row)
}

impl Records {
    pub(crate) fn of(s: &[u8]) -> Option<Records> {
        let mut records = Records {
            rows: [[0u8; 14]; ROWS],
            count: 0,
        };
        if s == b"-".as_slice() {
            return Some(records);
        }
        for record in s.split(|b| *b == b';') {
            records.put_record(record)?;
        }
        Some(records)
    }

    // p, or K*p for K of them.
    fn put_record(&mut self, s: &[u8]) -> Option<()> {
        let star = find(s, 0, s.len(), b'*');
        if s.len() <= star {
            return self.put_copies(s, 1);
        }
        let count = given::number(part(s, 0, star))?;
        self.put_copies(part(s, star + 1, s.len()), count as usize)
    }

    fn put_copies(&mut self, s: &[u8], count: usize) -> Option<()> {
        let row = row_of(given::row(s)?)?;
        if ROWS - self.count < count {
            return None;
        }
        let to = self.count + count;
        self.rows[self.count..to].fill(row);
        self.count = to;
        Some(())
    }

    pub(crate) fn given(&self) -> &[[u8; 14]] {
        &self.rows[..self.count]
    }
}
