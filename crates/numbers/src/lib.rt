// Decimal numbers of the ASCII AIGER format, read from a text and written to one.
// Clause 12.3: digits are converted while they are read, and none is kept.
// Clause 11.4: a match with ranges tells bytes apart.
#![tactic(auto)]

ghost use Rattle.std.specs.Prelude.{◌≡◌, length};
ghost use Rattle.aiger.specs.Text.{is_number, digits, long_digits};
ghost use Rattle.numbers.specs.Number.{NumberAt, Digits, part};
ghost use Rattle.numbers.specs.Last.{last_digits};

// A number that stands at a position of a text: the value, and the position past the byte that ended it.
#[derive(Clone, Copy)]
pub enum Number {
    // A space ended it.
    Spaced(u64, usize),
    // A line feed ended it.
    Ended(u64, usize),
}

// Whether the count digits at `at` are a number: at least one, and no leading zero unless it stands alone.
fn is_number(s: &[u8], at: usize, count: usize) -> bool
    requires { Digits s.now at count }
    ensures { result ≡ is_number (part s.now at count) }
{
    if count == 0 {
        return false;
    }
    if count == 1 {
        return true;
    }
    s[at] != b'0'
}

// Reads the number at a position: None where none stands there. Its value is made digit by digit.
pub fn read_number(s: &[u8], at: usize) -> Option<Number>
    ensures { NumberAt s.now at result }
{
    let mut total: u64 = 0;
    let mut count: usize = 0;
    let mut i = at;
    while i < s.len() {
        let b = s[i];
        match b {
            b'0'..=b'9' => {
                if count == 10 {
                    return None;
                }
                total = total * 10 + u64::from(b - b'0');
                count += 1;
                i += 1;
            }
            b' ' => {
                if is_number(s, at, count) {
                    return Some(Number::Spaced(total, i + 1));
                }
                return None;
            }
            b'\n' => {
                if is_number(s, at, count) {
                    return Some(Number::Ended(total, i + 1));
                }
                return None;
            }
            _ => {
                return None;
            }
        }
    }
    None
}

// How many digits n is written with.
pub fn long_digit_count(n: u64) -> usize
    ensures { result ≡ length (long_digits n) }
{
    let mut count: usize = 1;
    let mut rest = n;
    while 9 < rest {
        rest /= 10;
        count += 1;
    }
    count
}

// How many digits n is written with.
pub fn digit_count(n: u32) -> usize
    ensures { result ≡ length (digits n) }
{
    long_digit_count(u64::from(n))
}

// Fills out with the last digits of n, zeros before a shorter n.
pub fn fill(out: &mut [u8], n: u64)
    ensures { out.new ≡ last_digits (length out.old) n }
{
    let mut k = out.len();
    let mut rest = n;
    while 0 < k {
        k -= 1;
        out[k] = b'0' + (rest % 10) as u8;
        rest /= 10;
    }
}
