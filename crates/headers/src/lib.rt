// The header line of the AIGER formats, and the limits of its numbers.
#![tactic(auto)]

ghost use Rattle.std.specs.Prelude.{◌≡◌};
ghost use Rattle.aiger.specs.File.{is_binary, counts_fit, counts_right};
ghost use Rattle.headers.specs.Header.{HeaderAt, counts_of, counts_meant, limits_hold, named};

use lines::{Row, read_row};

// The numbers of a header: the largest variable, and how many inputs, latches, outputs, gates, bad properties,
// constraints, justice properties and fairness constraints there are.
#[derive(Clone, Copy)]
pub struct Counts {
    pub m: u64,
    pub i: u64,
    pub l: u64,
    pub o: u64,
    pub a: u64,
    pub b: u64,
    pub c: u64,
    pub j: u64,
    pub f: u64,
}

// A header: its numbers, and the position past it.
#[derive(Clone, Copy)]
pub struct Header {
    pub counts: Counts,
    pub next: usize,
}

// Whether s begins with the first word of a header that has this second letter.
fn is_named(s: &[u8], letter: u8) -> bool
    ensures { result ≡ named letter s.now }
{
    if s.len() < 4 {
        return false;
    }
    (s[0] == b'a') & (s[1] == letter) & (s[2] == b'g') & (s[3] == b' ')
}

// Whether s begins with the first word of the binary form.
pub fn is_binary(s: &[u8]) -> bool
    ensures { result ≡ is_binary s.now }
{
    is_named(s, b'i')
}

fn counts_of(list: &[u64; 9]) -> Counts
    ensures { result ≡ counts_of list.now }
{
    Counts {
        m: list[0],
        i: list[1],
        l: list[2],
        o: list[3],
        a: list[4],
        b: list[5],
        c: list[6],
        j: list[7],
        f: list[8],
    }
}

// Reads the header line: `aag` or `aig` and five to nine numbers, missing ones as 0.
pub fn read_header(s: &[u8]) -> Option<Header>
    ensures { HeaderAt s.now result }
{
    let text = is_named(s, b'a');
    let binary = is_binary(s);
    if !(text | binary) {
        return None;
    }
    let mut list = [0u64; 9];
    let Row { count, next } = read_row(s, 4, 9, &mut list)?;
    if count < 5 {
        return None;
    }
    let counts = counts_of(&list);
    Some(Header { counts, next })
}

// Whether each number is within its own limit.
fn within_limits(c: Counts) -> bool
    ensures { result ≡ limits_hold c }
{
    (c.m <= 4096)
        & (c.i <= 256)
        & (c.l <= 1024)
        & (c.o <= 64)
        & (c.a <= 3072)
        & (c.b <= 16)
        & (c.c <= 16)
        & (c.j == 0)
        & (c.f == 0)
}

// Whether each number is within its limit, and there are variables enough for the inputs, latches and gates.
pub fn counts_fit(c: Counts) -> bool
    ensures { result ≡ counts_fit (counts_meant c) }
{
    if within_limits(c) {
        return c.i + c.l + c.a <= c.m;
    }
    false
}

// Whether the numbers are right for a file in binary form, where every variable has a definition, or in text form.
pub fn counts_right(c: Counts, binary: bool) -> bool
    ensures { result ≡ counts_right binary (counts_meant c) }
{
    if counts_fit(c) {
        if binary {
            return c.i + c.l + c.a == c.m;
        }
        return true;
    }
    false
}
