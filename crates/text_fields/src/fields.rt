// The fields of a line, parted by one space each, and what they spell.
ghost use Rattle.std.specs.Prelude.{◌≡◌, ◌+◌, ◌-◌, ◌*◌, ◌≤◌, ◌<◌, length, drop};
ghost use Rattle.text_fields.specs.Fields.{from_field, field_of};
ghost use Rattle.text_fields.specs.Spelled.{decimal_of};

use octet_scan::find;

// The place behind the k-th space, or the end where there are fewer.
fn field_start(s: &[u8], k: usize) -> usize
    ensures { (result ≤ length s.now) × (drop result s.now ≡ from_field s.now k) }
{
    let mut from: usize = 0;
    for _left in (0..k).rev() {
        let space = find(s, from, s.len(), b' ');
        if s.len() <= space {
            return s.len();
        }
        from = space + 1;
    }
    from
}

// The field of a number, counted from 0; empty where the line has no such field.
pub fn field(s: &[u8], k: usize) -> &[u8]
    ensures { result.now ≡ field_of s.now k }
{
    let from = field_start(s, k);
    let to = find(s, from, s.len(), b' ');
    &s[from..to]
}

// A field of decimal digits. Behind a number over 10^18 no further digit is taken.
pub fn decimal(s: &[u8]) -> Option<u64>
    ensures { result ≡ decimal_of s.now }
{
    if s.len() == 0 {
        return None;
    }
    let mut v: u64 = 0;
    for &b in s {
        if b < b'0' {
            return None;
        }
        if b'9' < b {
            return None;
        }
        if 1000000000000000000 < v {
            return None;
        }
        v = v * 10 + digit_value(b);
    }
    Some(v)
}

fn digit_value(b: u8) -> u64
    requires { (48 ≤ b) × (b ≤ 57) }
    ensures { result ≡ b - 48 }
{
    (b - b'0') as u64
}
