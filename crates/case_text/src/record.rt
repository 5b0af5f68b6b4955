// A record: kind key=value key=value .. => result.
ghost use Rattle.std.specs.Prelude.{◌+◌, ◌≤◌, length, IfSome};

use octet_scan::find;
use text::lines::part;

// The arrow with a space on each side parts a record: the place before it.
pub fn arrow(s: &[u8]) -> Option<usize>
    ensures { IfSome result (λ at. at + 4 ≤ length s.now) }
{
    let at = find(s, 0, s.len(), b'>');
    if at < 2 {
        return None;
    }
    if s.len() - at < 2 {
        return None;
    }
    if s[at - 2..].starts_with(b" => ") {
        Some(at - 2)
    } else {
        None
    }
}

// What stands before the first space.
pub fn first(s: &[u8]) -> &[u8] {
    part(s, 0, find(s, 0, s.len(), b' '))
}

// The value of a field that has the key, where there is one.
fn value_of<'a>(field: &'a [u8], key: &[u8]) -> Option<&'a [u8]> {
    let value = field.strip_prefix(key)?.strip_prefix(b"=")?;
    if value.is_empty() { None } else { Some(value) }
}

// The place of the first field from a place on that has the key; none where none before the next arrow has it.
pub fn place_of(s: &[u8], from: usize, key: &[u8]) -> Option<usize> {
    let mut at = from;
    while at < s.len() {
        let to = find(s, at, s.len(), b' ');
        let field = part(s, at, to);
        if field.starts_with(b"=") {
            return None;
        }
        if value_of(field, key).is_some() {
            return Some(at);
        }
        at = to + 1;
    }
    None
}

// The value of a key that stands before the arrow; nothing where it is not given.
pub fn value<'a>(s: &'a [u8], key: &[u8]) -> &'a [u8] {
    for field in s.split(|b| *b == b' ') {
        if field.starts_with(b"=") {
            return b"";
        }
        if let Some(value) = value_of(field, key) {
            return value;
        }
    }
    b""
}

// How many fields stand behind the kind: as many as there are spaces.
fn fields(s: &[u8]) -> usize {
    s.iter().filter(|b| **b == b' ').count()
}

// How often a key is given, with a value.
fn times(line: &[u8], key: &[u8]) -> usize {
    line.split(|b| *b == b' ')
        .filter(|field| value_of(field, key).is_some())
        .count()
}

// Of a word of a rule: how many fields it takes; none where the key is given twice, or is missing and may not be.
fn taken(line: &[u8], word: &[u8]) -> Option<usize> {
    match word.strip_prefix(b"?") {
        Some(key) => match times(line, key) {
            0 => Some(0),
            1 => Some(1),
            _ => None,
        },
        None => match times(line, word) {
            1 => Some(1),
            _ => None,
        },
    }
}

// Whether a line has the kind and the keys of a rule: kind key key ?key, where a key behind a ? may be missing. No other field is left.
fn fits(line: &[u8], rule: &[u8]) -> bool {
    if first(line) != first(rule) {
        return false;
    }
    let mut left = fields(line);
    for word in rule.split(|b| *b == b' ').skip(1) {
        let Some(n) = taken(line, word) else {
            return false;
        };
        if left < n {
            return false;
        }
        left -= n;
    }
    left == 0
}

// Whether a line fits one of the rules, a rule a line.
pub fn is_by(rules: &[u8], line: &[u8]) -> bool {
    rules.split(|b| *b == b'\n').any(|rule| fits(line, rule))
}
