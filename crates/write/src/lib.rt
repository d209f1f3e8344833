// The text of the circuit that a circuit memory holds: its length, and the text at the front of an output.
#![tactic(auto)]

ghost use Rattle.std.specs.Prelude.{◌≡◌, ◌+◌, ◌≤◌, ◌<◌, length};
ghost use Rattle.aiger.specs.Write.{write};
ghost use Rattle.aiger.specs.Memory.{Holds};
ghost use Rattle.aiger.specs.Operations.{front, Written};
ghost use Rattle.layout.specs.Words.{circuit_in};
ghost use Rattle.layout.specs.Layout.{LayoutOf};
ghost use Rattle.output.specs.Output.{Room, Placed};
ghost use Rattle.output.specs.Row.{row_text};
ghost use Rattle.write.specs.Rows.{row_count, rows_text, RowsIn, section_text, SectionIn};
ghost use Rattle.write.specs.Answer.{answered};

use layout::{Layout, Section};

// The length of the text, or the number of the refusal.
#[derive(Clone, Copy)]
pub enum WriteAnswer {
    Length(usize),
    Refused(u32),
}

// How many of the `most` words at p their line has: `least` where the last is 0.
fn row_count(m: &[u32], p: usize, least: usize, most: usize) -> usize
    requires { (0 < most) × (p + most ≤ length m.now) }
    ensures { result ≡ row_count least most m.now p }
{
    if m[p + (most - 1)] == 0 {
        return least;
    }
    most
}

// The length of the line of n words from `first` on.
fn row_length(m: &[u32], first: usize, n: usize) -> usize
    requires { (first + n ≤ length m.now) × (n ≤ 7) }
    ensures { result ≡ length (row_text m.now first n) }
{
    let mut total: usize = 0;
    let mut p = first;
    let mut left = n;
    while 0 < left {
        total += numbers::digit_count(m[p]) + 1;
        p += 1;
        left -= 1;
    }
    total
}

// The length of n lines of `least` to `most` numbers, `most` words each, from `first` on.
fn rows_length(m: &[u32], first: usize, n: usize, least: usize, most: usize) -> usize
    requires { RowsIn m.now first n most × (least ≤ most) }
    ensures { result ≡ length (rows_text least most m.now first n) }
{
    let mut total: usize = 0;
    let mut p = first;
    let mut left = n;
    while 0 < left {
        total += row_length(m, p, row_count(m, p, least, most));
        p += most;
        left -= 1;
    }
    total
}

// The length of the lines of a section. Gates, which most lines are, have a call with constants: the compiler then makes a loop for them
// alone.
fn section_length(m: &[u32], t: Section) -> usize
    requires { SectionIn m.now t }
    ensures { result ≡ length (section_text m.now t) }
{
    if t.least == 3 {
        return rows_length(m, t.at, t.rows, 3, 3);
    }
    rows_length(m, t.at, t.rows, t.least, t.most)
}

// The length of the text of the circuit in m.
fn text_length(m: &[u32], layout: Layout) -> usize
    requires { Holds m.now (circuit_in m.now) × LayoutOf m.now layout }
    ensures { result ≡ length (write (circuit_in m.now)) }
{
    let mut total = 4 + row_length(m, 0, 7);
    let mut k: usize = 0;
    while k < 6 {
        let t = layout::section_at(layout, k);
        total += section_length(m, t);
        k += 1;
    }
    total
}

// Writes n lines of `least` to `most` numbers, `most` words each, from `first` on.
fn write_rows(
    m: &[u32],
    first: usize,
    n: usize,
    least: usize,
    most: usize,
    out: &mut [u8],
    at: usize,
) -> usize
    requires { RowsIn m.now first n most × (least ≤ most) × Room out.old at (rows_text least most m.now first n) }
    ensures { Placed out.old at (rows_text least most m.now first n) result out.new }
{
    let mut end = at;
    let mut p = first;
    let mut left = n;
    while 0 < left {
        let count = row_count(m, p, least, most);
        end = output::put_row(m, p, count, out, end);
        p += most;
        left -= 1;
    }
    end
}

// Writes the lines of a section, gates by a call with constants here too.
fn write_section(m: &[u32], t: Section, out: &mut [u8], at: usize) -> usize
    requires { SectionIn m.now t × Room out.old at (section_text m.now t) }
    ensures { Placed out.old at (section_text m.now t) result out.new }
{
    if t.least == 3 {
        return write_rows(m, t.at, t.rows, 3, 3, out, at);
    }
    write_rows(m, t.at, t.rows, t.least, t.most, out, at)
}

// Writes the text of the circuit in m at the front of out.
fn write_text(m: &[u32], layout: Layout, out: &mut [u8])
    requires { Holds m.now (circuit_in m.now) × LayoutOf m.now layout × (length (write (circuit_in m.now)) ≤ length out.old) }
    ensures { out.new ≡ front (write (circuit_in m.now)) out.old }
{
    let head = output::put(out, 0, b"aag ");
    let mut end = output::put_row(m, 0, 7, out, head);
    let mut k: usize = 0;
    while k < 6 {
        let t = layout::section_at(layout, k);
        end = write_section(m, t, out, end);
        k += 1;
    }
}

// Form 0 of the operation write: puts the text of the circuit that m holds at the front of out.
pub fn write(m: &[u32], out: &mut [u8]) -> WriteAnswer
    ensures { Written m.now out.old (answered result) out.new }
{
    let Some(layout) = circuit::test(m) else {
        return WriteAnswer::Refused(9);
    };
    let length = text_length(m, layout);
    if out.len() < length {
        return WriteAnswer::Refused(13);
    }
    write_text(m, layout, out);
    WriteAnswer::Length(length)
}
