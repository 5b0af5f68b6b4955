// Octets that a field spells by pairs of hexadecimal digits.
ghost use Rattle.std.specs.Prelude.{◌≡◌, ◌+◌, ◌-◌, ◌*◌, ◌≤◌, ◌<◌, length, take};
ghost use Rattle.text_fields.specs.Spelled.{digit_of, octet_of, octets_of, octets_over, is_dash, octets_read, octets_answer};

pub fn hex_digit(b: u8) -> Option<u8>
    ensures { result ≡ digit_of b }
{
    match b {
        48..=57 => Some(b - 48),
        97..=102 => Some(b - 87),
        _ => None,
    }
}

// The byte of two hexadecimal digits.
pub fn hex_byte(high: u8, low: u8) -> Option<u8>
    ensures { result ≡ octet_of high low }
{
    let h = hex_digit(high)?;
    let l = hex_digit(low)?;
    Some(joined(h, l))
}

fn joined(h: u8, l: u8) -> u8
    requires { (h < 16) × (l < 16) }
    ensures { result ≡ h * 16 + l }
{
    h * 16 + l
}

// A dash, which stands for no bytes.
fn is_dash(s: &[u8]) -> bool
    ensures { result ≡ is_dash s.now }
{
    if s.len() != 1 {
        return false;
    }
    s[0] == b'-'
}

// Puts the bytes that the field spells at the start of out, up to the first that is none or has no room; answers how many they are.
fn put_octets(s: &[u8], out: &mut [u8]) -> usize
    ensures value { result ≡ length (take (length out.old) (octets_of s.now)) }
    ensures out_after { out.new ≡ octets_over s.now out.old }
    ensures result_in_bounds { 2 * result ≤ length s.now }
{
    for i in 0..out.len() {
        if s.len() / 2 <= i {
            return i;
        }
        let Some(b) = hex_byte(s[2 * i], s[2 * i + 1]) else {
            return i;
        };
        out[i] = b;
    }
    out.len()
}

// The answer for so many bytes: they are missing unless they are the whole field.
fn octets_read(s: &[u8], n: usize) -> Option<usize>
    requires { 2 * n ≤ length s.now }
    ensures { result ≡ octets_read s.now n }
{
    if is_dash(s) {
        return Some(n);
    }
    if s.len() == 2 * n {
        return Some(n);
    }
    None
}

// A field of hexadecimal bytes, put at the start of out; a dash stands for none.
// Where it spells something else as well, or has no room, out holds the bytes before that.
pub fn hex_bytes(s: &[u8], out: &mut [u8]) -> Option<usize>
    ensures value { result ≡ octets_answer s.now (length out.old) }
    ensures out_after { out.new ≡ octets_over s.now out.old }
{
    let n = put_octets(s, out);
    octets_read(s, n)
}
