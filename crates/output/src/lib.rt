// Text put at a position of an output: a text that is given, a number, a number with the byte after it, a frame with a place, and a line of
// numbers. The answer is always the position past what was put.
#![tactic(auto)]

ghost use Rattle.std.specs.Prelude.{◌≡◌, ◌+◌, ◌≤◌, length};
ghost use Rattle.aiger.specs.Text.{digits, long_digits};
ghost use Rattle.output.specs.Output.{Room, Placed};
ghost use Rattle.output.specs.Row.{ending, number_text, place_text, row_text};

// Puts a text.
pub fn put(out: &mut [u8], at: usize, text: &[u8]) -> usize
    requires { Room out.old at text.now }
    ensures { Placed out.old at text.now result out.new }
{
    let end = at + text.len();
    out[at..end].copy_from_slice(text);
    end
}

// Puts the digits of n.
pub fn put_long(out: &mut [u8], at: usize, n: u64) -> usize
    requires { Room out.old at (long_digits n) }
    ensures { Placed out.old at (long_digits n) result out.new }
{
    let end = at + numbers::long_digit_count(n);
    numbers::fill(&mut out[at..end], n);
    end
}

// Puts the digits of n.
pub fn put_number(out: &mut [u8], at: usize, n: u32) -> usize
    requires { Room out.old at (digits n) }
    ensures { Placed out.old at (digits n) result out.new }
{
    put_long(out, at, u64::from(n))
}

// The byte after a number that `left` more follow in its line.
fn ending_byte(left: usize) -> u8
    ensures { result ≡ ending left }
{
    if left == 0 {
        return b'\n';
    }
    b' '
}

// Puts n and the byte after it, in a line in which `left` numbers follow.
pub fn put_ended(out: &mut [u8], at: usize, n: u32, left: usize) -> usize
    requires { Room out.old at (number_text n left) }
    ensures { Placed out.old at (number_text n left) result out.new }
{
    let end = put_number(out, at, n);
    out[end] = ending_byte(left);
    end + 1
}

// Puts t, a space, a place and a line feed.
pub fn put_place(out: &mut [u8], at: usize, t: u32, place: u64) -> usize
    requires { Room out.old at (place_text t place) }
    ensures { Placed out.old at (place_text t place) result out.new }
{
    let start = put_ended(out, at, t, 1);
    let end = put_long(out, start, place);
    out[end] = b'\n';
    end + 1
}

// Puts the line of n words from `first` on.
pub fn put_row(m: &[u32], first: usize, n: usize, out: &mut [u8], at: usize) -> usize
    requires { (first + n ≤ length m.now) × Room out.old at (row_text m.now first n) }
    ensures { Placed out.old at (row_text m.now first n) result out.new }
{
    let mut end = at;
    for k in 0..n {
        end = put_ended(out, end, m[first + k], n - k - 1);
    }
    end
}
