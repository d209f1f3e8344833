// The text of a witness: written row by row, and read line by line.
#![tactic(auto)]

ghost use Rattle.std.specs.Prelude.{◌≡◌, true, cond, ℕ, ◌+◌, ◌≤◌, ◌<◌, eqb, length, drop};
ghost use Rattle.aiger.specs.Lists.{same};
ghost use Rattle.aiger.specs.Text.{bytes};
ghost use Rattle.aiger.specs.Frames.{free_starts, starts, run};
ghost use Rattle.aiger.specs.Witness.{bit_line, witness};
ghost use Rattle.aiger.specs.Operations.{front};
ghost use Rattle.literals.specs.Literal.{word_of};
ghost use Rattle.layout.specs.Words.{circuit_in};
ghost use Rattle.witness.specs.Writing.{free_at, row_of, heading_text, SequenceIn, StartsFit, WitnessFits};
ghost use Rattle.witness.specs.Line.{LineAt};
ghost use Rattle.witness.specs.Heading.{HeadingAt};

use layout::Layout;
use literals::Lit;
use numbers::Number;

// A latch's start value, and how many free bits are used after it.
#[derive(Clone, Copy)]
struct Start {
    value: bool,
    used: usize,
}

// What stands at a position of a text: a line of bits, and the position past it.
#[derive(Clone, Copy)]
pub enum Bits {
    Read(usize),
    Malformed,
}

// The first two lines of a witness: the number of the bad line, and the position past them.
#[derive(Clone, Copy)]
pub enum Heading {
    Read(u64, usize),
    Malformed,
}

fn byte_of(bit: bool) -> u8
    ensures { result ≡ cond bit 49 48 }
{
    if bit { b'1' } else { b'0' }
}

// Word i, as a bit.
fn bit_at(words: &[u32], i: usize) -> bool
    requires { i < length words.now }
    ensures { result ≡ free_at words.now i }
{
    words[i] != 0
}

// Writes count bits, those of free from `from` on, and a line feed to the front of part.
fn write_row(part: &mut [u8], free: &[u32], from: usize, count: usize)
    requires { (count < length part.old) × (from + count ≤ length free.now) }
    ensures { part.new ≡ front (bit_line (row_of free.now from count)) part.old }
{
    let mut i: usize = 0;
    while i < count {
        part[i] = byte_of(bit_at(free, from + i));
        i += 1;
    }
    part[count] = b'\n';
}

// The start value of a latch with this literal and reset, where the first `used` free bits are used.
fn start_of(lit: Lit, reset: Lit, free: &[u32], used: usize) -> Start
    requires { eqb (word_of reset) (word_of lit) ≡ true → used < length free.now }
    ensures { (result.value ≡ cond (eqb (word_of reset) (word_of lit)) (free_at free.now used) (eqb (word_of reset) 1))
        × (result.used ≡ cond (eqb (word_of reset) (word_of lit)) (used + 1) used) }
{
    if reset.equals(lit) {
        let value = bit_at(free, used);
        return Start {
            value,
            used: used + 1,
        };
    }
    Start {
        value: reset.is_true(),
        used,
    }
}

// Writes the line of start values to the front of part: a latch's reset, or the next free bit where its start is free. The answer is
// the number of free starts.
fn write_starts(part: &mut [u8], m: &[u32], layout: Layout, free: &[u32]) -> usize
    requires { StartsFit part.old m.now layout free.now }
    ensures { (result ≡ free_starts (circuit_in m.now))
        × (part.new
        ≡ front (bit_line (starts (free_at free.now) 0 (circuit_in m.now).latches)) part.old) }
{
    let latches = layout.l;
    let mut at = layout.latches;
    let mut used: usize = 0;
    let mut j: usize = 0;
    while j < latches {
        let lit = Lit::from_word(m[at]);
        let reset = Lit::from_word(m[at + 2]);
        let start = start_of(lit, reset, free, used);
        part[j] = byte_of(start.value);
        used = start.used;
        j += 1;
        at += 3;
    }
    part[latches] = b'\n';
    used
}

// Writes the lines `1` and `b` with b to the front of out. The answer is their length.
fn write_heading(out: &mut [u8], b: u32) -> usize
    requires { length (heading_text b) ≤ length out.old }
    ensures { (result ≡ length (heading_text b)) × (out.new ≡ front (heading_text b) out.old) }
{
    let number = output::put(out, 0, b"1\nb");
    output::put_ended(out, number, b, 0)
}

// Writes the witness of bad line b for the sequence of frame t whose free bits stand in free to the front of out.
pub fn write_witness(out: &mut [u8], m: &[u32], layout: Layout, b: u32, t: usize, free: &[u32])
    requires { WitnessFits out.old m.now layout b t free.now }
    ensures { (x : ℕ)
        → SequenceIn free.now (circuit_in m.now) t x
        → out.new ≡ front (witness b (run (circuit_in m.now) t x)) out.old }
{
    let inputs = layout.i;
    let start = write_heading(out, b);
    let used = write_starts(&mut out[start..], m, layout, free);
    let rows = start + layout.l + 1;
    let mut frame: usize = 0;
    while frame <= t {
        let offset = rows + frame * (inputs + 1);
        write_row(&mut out[offset..], free, used + inputs * frame, inputs);
        frame += 1;
    }
    let end = rows + frame * (inputs + 1);
    out[end] = b'.';
    out[end + 1] = b'\n';
}

// A line of count bits at `at`.
pub fn read_bits(text: &[u8], at: usize, count: usize) -> Bits
    ensures { LineAt text.now at count result }
{
    if text.len() <= at {
        return Bits::Malformed;
    }
    if text.len() - at <= count {
        return Bits::Malformed;
    }
    let mut i: usize = 0;
    while i < count {
        match text[at + i] {
            b'0'..=b'1' => {
                i += 1;
            }
            _ => {
                return Bits::Malformed;
            }
        }
    }
    if text[at + count] != b'\n' {
        return Bits::Malformed;
    }
    Bits::Read(at + count + 1)
}

// Whether the line `.` stands at `at` and ends the text.
pub fn is_end(text: &[u8], at: usize) -> bool
    ensures { result ≡ same (drop at text.now) (bytes ".\n") }
{
    if text.len() <= at {
        return false;
    }
    if text.len() - at != 2 {
        return false;
    }
    if text[at] != b'.' {
        return false;
    }
    text[at + 1] == b'\n'
}

// The lines `1` and `b` with a number at the front of a text.
pub fn read_heading(text: &[u8]) -> Heading
    ensures { HeadingAt text.now result }
{
    if text.len() < 3 {
        return Heading::Malformed;
    }
    if text[0] != b'1' {
        return Heading::Malformed;
    }
    if text[1] != b'\n' {
        return Heading::Malformed;
    }
    if text[2] != b'b' {
        return Heading::Malformed;
    }
    let Some(number) = numbers::read_number(text, 3) else {
        return Heading::Malformed;
    };
    let Number::Ended(b, next) = number else {
        return Heading::Malformed;
    };
    Heading::Read(b, next)
}
