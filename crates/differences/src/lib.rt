// The differences of binary AIGER: numbers to the base 128, least digit first, read from a text and written to one.
#![tactic(auto)]

ghost use Rattle.std.specs.Prelude.{◌≡◌, ◌+◌, ◌≤◌, length};
ghost use Rattle.aiger.specs.Binary.{difference_text};
ghost use Rattle.differences.specs.Groups.{DifferenceAt, Placed-in};

// A difference that stands at a position of a text: the number, and the position past it.
#[derive(Clone, Copy)]
pub struct Difference {
    pub value: u32,
    pub next: usize,
}

// Reads the difference at a position: None where none stands there, or one that is too large.
pub fn read_difference(s: &[u8], at: usize) -> Option<Difference>
    ensures { DifferenceAt s.now at result }
{
    let mut total: u64 = 0;
    let mut scale: u64 = 1;
    let mut i = at;
    for _ in 0..5_u32 {
        if s.len() <= i {
            return None;
        }
        let b = u64::from(s[i]);
        i += 1;
        if b < 128 {
            total += b * scale;
            if total > 0xffff_ffff {
                return None;
            }
            let value = total as u32;
            return Some(Difference { value, next: i });
        }
        total += (b - 128) * scale;
        scale *= 128;
    }
    None
}

// How many groups a difference is written with.
pub fn group_count(n: u32) -> usize
    ensures { result ≡ length (difference_text n) }
{
    let mut count: usize = 1;
    let mut rest = n;
    while 127 < rest {
        rest /= 128;
        count += 1;
    }
    count
}

// Writes a difference in the fewest groups, and gives the position past it.
pub fn write_difference(out: &mut [u8], at: usize, n: u32) -> usize
    requires { at + length (difference_text n) ≤ length out.old }
    ensures { Placed-in out.old at (difference_text n) result out.new }
{
    let mut end = at;
    let mut rest = n;
    while rest > 127 {
        out[end] = (128 + rest % 128) as u8;
        end += 1;
        rest /= 128;
    }
    out[end] = rest as u8;
    end + 1
}
