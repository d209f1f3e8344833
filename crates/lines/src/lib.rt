// Lines of numbers of the AIGER formats: one line, runs of lines, and the tail.
#![tactic(auto)]

ghost use Rattle.std.specs.Prelude.{◌≡◌, ◌+◌, ◌*◌, ◌≤◌, length, drop};
ghost use Rattle.std.proofs.lemmas.List.Edits.{sets};
ghost use Rattle.aiger.specs.File.{is_tail};
ghost use Rattle.lines.specs.Lines.{RowAt, begun, Stored, LineAt, RowsAt, rows_left, narrowed};

use numbers::Number;

// A line of numbers: how many there are, and the position past it.
#[derive(Clone, Copy)]
pub struct Row {
    pub count: usize,
    pub next: usize,
}

// A run of lines: the position past it, and whether every number is within the limit.
#[derive(Clone, Copy)]
pub struct Rows {
    pub next: usize,
    pub fits: bool,
}

// The form of a line: how many numbers it has at least and at most, and the limit of each.
#[derive(Clone, Copy)]
pub struct Form {
    pub least: usize,
    pub most: usize,
    pub limit: u32,
}

// Reads a line of 1 to most numbers into the front of buf: None where the line is malformed. Of a malformed line, the numbers before the malformed place are left there.
pub fn read_row(s: &[u8], at: usize, most: usize, buf: &mut [u64]) -> Option<Row>
    requires { most ≤ length buf.old }
    ensures { RowAt s.now at most buf.old buf.new result
        × (buf.new ≡ sets buf.old 0 (begun most (drop at s.now))) }
{
    let mut next = at;
    for count in 0..most {
        match numbers::read_number(s, next)? {
            Number::Spaced(v, after) => {
                buf[count] = v;
                next = after;
            }
            Number::Ended(v, after) => {
                buf[count] = v;
                return Some(Row {
                    count: count + 1,
                    next: after,
                });
            }
        }
    }
    None
}

// v, or 0 where it is above the limit.
fn narrow(v: u64, limit: u32) -> u32
    ensures { result ≡ narrowed limit v }
{
    if v <= u64::from(limit) {
        return v as u32;
    }
    0
}

// Stores the first most words at word from of out, 0 for each above the limit, and says whether none is.
fn store_words(words: &[u64], most: usize, limit: u32, out: &mut [u32], from: usize) -> bool
    requires most_in_bounds { most ≤ length words.now }
    requires most_in_bounds_2 { from + most ≤ length out.old }
    ensures { Stored words.now most limit out.old from out.new result }
{
    let wide = u64::from(limit);
    let mut fits = true;
    for k in 0..most {
        let v = words[k];
        fits = fits & (v <= wide);
        out[from + k] = narrow(v, limit);
    }
    fits
}

// Reads a line of a form, and stores it as the form's most words, missing numbers and those above the limit as 0. Of a malformed line
// nothing is stored.
pub fn read_line(s: &[u8], at: usize, form: Form, out: &mut [u32], from: usize) -> Option<Rows>
    requires most_bound { form.most ≤ 3 }
    requires most_in_bounds { from + form.most ≤ length out.old }
    ensures { LineAt s.now at form.least form.most form.limit out.old from out.new result }
{
    let mut words = [0u64; 3];
    let Row { count, next } = read_row(s, at, form.most, &mut words)?;
    if count < form.least {
        return None;
    }
    let fits = store_words(&words, form.most, form.limit, out, from);
    Some(Rows { next, fits })
}

// Reads n lines of a form, and stores each as the form's most words from word from of out on, numbers above the limit as 0. Those before a
// malformed line are stored.
pub fn read_rows(
    s: &[u8],
    at: usize,
    n: usize,
    form: Form,
    out: &mut [u32],
    from: usize,
) -> Option<Rows>
    requires at_in_bounds { at ≤ length s.now }
    requires most_bound { form.most ≤ 3 }
    requires most_in_bounds { from + n * form.most ≤ length out.old }
    ensures { RowsAt s.now at form.least form.most n form.limit out.old from out.new result
        × (out.new
        ≡ sets out.old from (rows_left form.least form.most form.limit n (drop at s.now))) }
{
    let mut next = at;
    let mut fits = true;
    let mut to = from;
    for _ in 0..n {
        let line = read_line(s, next, form, out, to)?;
        next = line.next;
        fits = fits & line.fits;
        to += form.most;
    }
    Some(Rows { next, fits })
}

// Whether the text ends at a position, or a line `c` stands there.
pub fn is_tail(s: &[u8], at: usize) -> bool
    ensures { result ≡ is_tail (drop at s.now) }
{
    if s.len() <= at {
        return true;
    }
    if s.len() - at < 2 {
        return false;
    }
    if s[at] != b'c' {
        return false;
    }
    s[at + 1] == b'\n'
}
