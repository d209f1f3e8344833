// The sections of a file in binary form, written from the words of a circuit memory under the numbers of a table.
#![tactic(auto)]

ghost use Rattle.std.specs.Prelude.{◌≡◌, ◌+◌, ◌*◌, ◌≤◌, ◌<◌, length};
ghost use Rattle.renumber.specs.Names.{Within};
ghost use Rattle.renumbered.specs.Renumbered.{sorted, gate_text};
ghost use Rattle.output.specs.Output.{Room, Placed};
ghost use Rattle.binary_text.specs.Lines.{latch_line, latch_lines, literal_lines, gate_bytes, Listed};

// Writes the line of a latch: the reset where it is not 0.
fn write_latch(next: u32, reset: u32, out: &mut [u8], at: usize) -> usize
    requires { Room out.old at (latch_line next reset) }
    ensures { Placed out.old at (latch_line next reset) result out.new }
{
    if reset == 0 {
        return output::put_ended(out, at, next, 0);
    }
    let end = output::put_ended(out, at, next, 1);
    output::put_ended(out, end, reset, 0)
}

// Writes the lines of n latches, three words each from `first` on.
pub fn write_latches(
    m: &[u32],
    first: usize,
    n: usize,
    names: &[u32],
    out: &mut [u8],
    at: usize,
) -> usize
    requires { (first + 3 * n ≤ length m.now) × Within m.now first (3 * n) names.now
        × Room out.old at (latch_lines names.now m.now first n) }
    ensures { Placed out.old at (latch_lines names.now m.now first n) result out.new }
{
    let mut end = at;
    let mut p = first;
    let mut left = n;
    while 0 < left {
        let next = renumber::rename_word(names, m[p + 1]);
        let reset = renumber::rename_word(names, m[p + 2]);
        end = write_latch(next, reset, out, end);
        p += 3;
        left -= 1;
    }
    end
}

// Writes the lines of n literals from `first` on.
pub fn write_literals(
    m: &[u32],
    first: usize,
    n: usize,
    names: &[u32],
    out: &mut [u8],
    at: usize,
) -> usize
    requires { (first + n ≤ length m.now) × Within m.now first n names.now × Room out.old at (literal_lines names.now m.now first n) }
    ensures { Placed out.old at (literal_lines names.now m.now first n) result out.new }
{
    let mut end = at;
    let mut p = first;
    let mut left = n;
    while 0 < left {
        end = output::put_ended(out, end, renumber::rename_word(names, m[p]), 0);
        p += 1;
        left -= 1;
    }
    end
}

// Writes the two differences of a gate whose first operand is the larger one.
fn write_differences(lit: u32, left: u32, right: u32, out: &mut [u8], at: usize) -> usize
    requires { (left ≤ lit) × (right ≤ left) × Room out.old at (gate_text (record { lit = lit; left = left; right = right })) }
    ensures { Placed out.old at (gate_text (record { lit = lit; left = left; right = right })) result out.new }
{
    let end = differences::write_difference(out, at, lit - left);
    differences::write_difference(out, end, left - right)
}

// Writes a gate, with its larger operand first.
fn write_gate(lit: u32, left: u32, right: u32, out: &mut [u8], at: usize) -> usize
    requires { (left ≤ lit) × (right ≤ lit) × Room out.old at (gate_text (sorted (record { lit = lit; left = left; right = right }))) }
    ensures { Placed out.old at (gate_text (sorted (record { lit = lit; left = left; right = right }))) result out.new }
{
    if left < right {
        return write_differences(lit, right, left, out, at);
    }
    write_differences(lit, left, right, out, at)
}

// Writes all gates in the order that is listed; gate i has its three words at first + 3i.
pub fn write_gates(
    m: &[u32],
    first: usize,
    count: usize,
    names: &[u32],
    order: &[u32],
    out: &mut [u8],
    at: usize,
) -> usize
    requires { Listed names.now m.now first count order.now × Room out.old at (gate_bytes names.now m.now first order.now 0 count) }
    ensures { Placed out.old at (gate_bytes names.now m.now first order.now 0 count) result
        out.new }
{
    let mut end = at;
    for j in 0..count {
        let p = first + 3 * order[j] as usize;
        let lit = renumber::rename_word(names, m[p]);
        let left = renumber::rename_word(names, m[p + 1]);
        let right = renumber::rename_word(names, m[p + 2]);
        end = write_gate(lit, left, right, out, end);
    }
    end
}
