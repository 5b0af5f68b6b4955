// The form of a frame's line: 22, 20, 21, in that order.
ghost use Rattle.std.specs.Prelude.{◌≡◌, ◌≤◌, ◌-◌, length};
ghost use Rattle.book_lines.specs.Lines.{line_of};
ghost use Rattle.book_lines.specs.Form.{is_digit, all_digits, worth, length_field, long_refusal, spelling_refusal, length_refusal, first_of, form_refusal};

// The most digits that a line may have.
const MOST_DIGITS: usize = 8468;

// Those of a frame without payload.
const FRONT_DIGITS: usize = 276;

fn is_digit(b: u8) -> bool
    ensures { result ≡ is_digit b }
{
    match b {
        48..=57 => true,
        97..=102 => true,
        _ => false,
    }
}

fn all_digits(line: &[u8]) -> bool
    ensures { result ≡ all_digits line.now }
{
    for &b in line {
        if !is_digit(b) {
            return false;
        }
    }
    true
}

fn less(b: u8, c: u8) -> usize
    ensures { result ≡ b - c }
{
    b.saturating_sub(c) as usize
}

// What a digit counts.
fn worth_of(b: u8) -> usize
    ensures { (result ≡ worth b) × (result ≤ 255) }
{
    if b <= 57 {
        return less(b, 48);
    }
    less(b, 87)
}

// The payload's length, as the line has it.
fn length_field(line: &[u8]) -> usize
    requires { 276 ≤ length line.now }
    ensures { (result ≡ length_field line.now) × (result ≤ 2000000) }
{
    let a = worth_of(line[12]);
    let b = worth_of(line[13]);
    let c = worth_of(line[14]);
    let d = worth_of(line[15]);
    ((a * 16 + b) * 16 + c) * 16 + d
}

// 22: too long.
fn long_refusal(line: &[u8], finished: bool) -> u32
    ensures { result ≡ long_refusal (line_of line.now finished) }
{
    if MOST_DIGITS < line.len() {
        return 22;
    }
    0
}

// 20: no digits throughout, not two a byte, or no line feed behind them.
fn spelling_refusal(line: &[u8], finished: bool) -> u32
    ensures { result ≡ spelling_refusal (line_of line.now finished) }
{
    if !all_digits(line) {
        return 20;
    }
    if line.len() % 2 != 0 {
        return 20;
    }
    if !finished {
        return 20;
    }
    0
}

// 21: too short, or not as long as it says.
fn length_refusal(line: &[u8], finished: bool) -> u32
    ensures { result ≡ length_refusal (line_of line.now finished) }
{
    if line.len() < FRONT_DIGITS {
        return 21;
    }
    if line.len() != FRONT_DIGITS + 2 * length_field(line) {
        return 21;
    }
    0
}

// The first number that is not 0.
fn first_of(a: u32, b: u32) -> u32
    ensures { result ≡ first_of a b }
{
    if a != 0 {
        return a;
    }
    b
}

// The number that a line is refused by, 0 for none. Of a longer line the first 8,469 bytes are enough.
pub fn refusal(line: &[u8], finished: bool) -> u32
    ensures { result ≡ form_refusal (line_of line.now finished) }
{
    let long = long_refusal(line, finished);
    let spelling = spelling_refusal(line, finished);
    let length = length_refusal(line, finished);
    let other = first_of(spelling, length);
    first_of(long, other)
}
