// The text of a value change dump (VCD), part by part: the length of each part, and the part at a position of an output.
#![tactic(auto)]

ghost use Rattle.std.specs.Prelude.{◌≡◌, ℕ, ◌+◌, ◌*◌, ◌≤◌, ◌<◌, length};
ghost use Rattle.output.specs.Output.{Room, Placed};
ghost use Rattle.vcd.specs.Text.{Level, declaration, declarations, header, time_mark, value_with, samples, dump};
ghost use Rattle.vcd.specs.Wires.{name_in, wires_in, FewWires};

use layout::Layout;

// The name of a wire: a letter for its kind, and its number among those of its kind.
#[derive(Clone, Copy)]
pub struct Name {
    pub kind: u8,
    pub index: u32,
}

// The name of wire k.
fn name_at(layout: Layout, k: usize) -> Name
    requires { (k < wires_in layout) × (wires_in layout ≤ 1376) }
    ensures { (result ≡ name_in layout k) × (result.index ≤ 1376) }
{
    if k < layout.i {
        return Name {
            kind: b'i',
            index: k as u32,
        };
    }
    let l = k - layout.i;
    if l < layout.l {
        return Name {
            kind: b'l',
            index: l as u32,
        };
    }
    let o = l - layout.l;
    if o < layout.o {
        return Name {
            kind: b'o',
            index: o as u32,
        };
    }
    let b = o - layout.o;
    if b < layout.b {
        return Name {
            kind: b'b',
            index: b as u32,
        };
    }
    Name {
        kind: b'c',
        index: (b - layout.b) as u32,
    }
}

// The length of the lines that declare the first n wires.
fn declarations_length(layout: Layout, n: usize) -> usize
    requires { FewWires layout n }
    ensures { result ≡ length (declarations (name_in layout) 0 n) }
{
    let mut total: usize = 0;
    let mut k: usize = 0;
    let mut left = n;
    while 0 < left {
        let name = name_at(layout, k);
        total += 22 + numbers::digit_count(name.index);
        k += 1;
        left -= 1;
    }
    total
}

// The length of so many samples of n wires.
fn samples_length(n: usize, frames: usize) -> usize
    requires { (n ≤ 1376) × (frames ≤ 256) }
    ensures { (level : ℕ → ℕ → Level) → result ≡ length (samples level n 0 frames) }
{
    let mut total: usize = 0;
    let mut t: u32 = 0;
    let mut left = frames;
    while 0 < left {
        total += 2 + numbers::digit_count(t) + 4 * n;
        t += 1;
        left -= 1;
    }
    total + 2 + numbers::digit_count(t)
}

// The length of the text of so many samples of the first n wires.
pub fn dump_length(layout: Layout, n: usize, frames: usize) -> usize
    requires { FewWires layout n × (frames ≤ 256) }
    ensures { (level : ℕ → ℕ → Level) → result ≡ length (dump (name_in layout) n level frames) }
{
    83 + declarations_length(layout, n) + samples_length(n, frames)
}

// Writes the line that declares wire k.
fn write_declaration(out: &mut [u8], at: usize, k: usize, name: Name) -> usize
    requires { (k < 1376) × Room out.old at (declaration k name) }
    ensures { Placed out.old at (declaration k name) result out.new }
{
    let kind = name.kind;
    let first = b'!' + (k / 94) as u8;
    let second = b'!' + (k % 94) as u8;
    let identifier = output::put(out, at, b"$var wire 1 ");
    let number = output::put(out, identifier, &[first, second, b' ', kind]);
    let end = output::put_ended(out, number, name.index, 1);
    output::put(out, end, b"$end\n")
}

// Writes the lines that declare the first n wires.
fn write_declarations(layout: Layout, n: usize, out: &mut [u8], at: usize) -> usize
    requires { FewWires layout n × Room out.old at (declarations (name_in layout) 0 n) }
    ensures { Placed out.old at (declarations (name_in layout) 0 n) result out.new }
{
    let mut end = at;
    let mut k: usize = 0;
    let mut left = n;
    while 0 < left {
        let name = name_at(layout, k);
        end = write_declaration(out, end, k, name);
        k += 1;
        left -= 1;
    }
    end
}

// Writes all that stands before the first time mark.
pub fn write_header(layout: Layout, n: usize, out: &mut [u8], at: usize) -> usize
    requires { FewWires layout n × Room out.old at (header (name_in layout) n) }
    ensures { Placed out.old at (header (name_in layout) n) result out.new }
{
    let wires = output::put(
        out,
        at,
        b"$timescale 1 ns $end\n$scope module trigger $end\n",
    );
    let end = write_declarations(layout, n, out, wires);
    output::put(out, end, b"$upscope $end\n$enddefinitions $end\n")
}

// Writes time mark t.
pub fn write_time(out: &mut [u8], at: usize, t: u32) -> usize
    requires { Room out.old at (time_mark t) }
    ensures { Placed out.old at (time_mark t) result out.new }
{
    let number = output::put(out, at, b"#");
    output::put_ended(out, number, t, 0)
}

// Writes the line of wire k with character `value` for its value.
pub fn write_value(out: &mut [u8], at: usize, k: usize, value: u8) -> usize
    requires { (k < 1376) × (at + 4 ≤ length out.old) }
    ensures { Placed out.old at (value_with k value) result out.new }
{
    let high = b'!' + (k / 94) as u8;
    let low = b'!' + (k % 94) as u8;
    output::put(out, at, &[value, high, low, b'\n'])
}
