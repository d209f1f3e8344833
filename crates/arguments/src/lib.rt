// A number that is an argument of a program.
#![tactic(auto)]

ghost use Rattle.std.specs.Prelude.{◌≡◌};
ghost use Rattle.arguments.specs.Arguments.{number_of, seed_of, place_of, meant};

// The number of 64 bits that a text is. Its value is made digit by digit.
pub fn read_seed(text: &[u8]) -> Option<u64>
    ensures { meant result ≡ seed_of text.now }
{
    let n = text.len();
    if n == 0 || 20 < n {
        return None;
    }
    let mut total: u64 = 0;
    for &b in text {
        match b {
            b'0'..=b'9' => total = total.checked_mul(10)?.checked_add(u64::from(b - b'0'))?,
            _ => return None,
        }
    }
    if 1 < n && text[0] == b'0' {
        return None;
    }
    Some(total)
}

// The number that a text of at most ten digits is.
pub fn read_argument(text: &[u8]) -> Option<u64>
    ensures { meant result ≡ number_of text.now }
{
    if 10 < text.len() {
        return None;
    }
    read_seed(text)
}

// The place that a text of at most nineteen digits is.
pub fn read_place(text: &[u8]) -> Option<u64>
    ensures { meant result ≡ place_of text.now }
{
    if 19 < text.len() {
        return None;
    }
    read_seed(text)
}
