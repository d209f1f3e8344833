// The circuit that a circuit memory holds, in binary form.
#![tactic(auto)]

ghost use Rattle.std.specs.Prelude.{◌≡◌, ◌≤◌, length};
ghost use Rattle.aiger.specs.Memory.{Holds};
ghost use Rattle.layout.specs.Words.{circuit_in};
ghost use Rattle.layout.specs.Layout.{LayoutOf};
ghost use Rattle.renumbered.specs.Renumbered.{write_binary, WrittenBinary};
ghost use Rattle.write.specs.Answer.{answered};
ghost use Rattle.output.specs.Output.{Room, Placed};
ghost use Rattle.write_binary.specs.Texts.{head_text, Small, Ready};

use layout::Layout;
use write::WriteAnswer;

// Writes the header at the front.
fn write_head(p: Layout, out: &mut [u8]) -> usize
    requires { Small p × Room out.old 0 (head_text p) }
    ensures { Placed out.old 0 (head_text p) result out.new }
{
    out[0] = b'a';
    out[1] = b'i';
    out[2] = b'g';
    out[3] = b' ';
    let row = [
        (p.i + p.l + p.a) as u32,
        p.i as u32,
        p.l as u32,
        p.o as u32,
        p.a as u32,
        p.b as u32,
        p.c as u32,
    ];
    output::put_row(&row, 0, 7, out, 4)
}

// Writes the text of the circuit in m at the front, by the numbers of its variables and the order of its gates.
fn write_text(m: &[u32], p: Layout, names: &[u32], order: &[u32], out: &mut [u8]) -> usize
    requires { Ready m.now p names.now order.now × Room out.old 0 (write_binary (circuit_in m.now)) }
    ensures { Placed out.old 0 (write_binary (circuit_in m.now)) result out.new }
{
    let head = write_head(p, out);
    let latches = binary_text::write_latches(m, p.latches, p.l, names, out, head);
    let lines = binary_text::write_literals(m, p.outputs, p.o + p.b + p.c, names, out, latches);
    binary_text::write_gates(m, p.gates, p.a, names, order, out, lines)
}

// Numbers the variables of the circuit in m, and writes its text at the front.
fn encode(m: &[u32], p: Layout, out: &mut [u8]) -> usize
    requires { Holds m.now (circuit_in m.now) × LayoutOf m.now p × Room out.old 0 (write_binary (circuit_in m.now)) }
    ensures { Placed out.old 0 (write_binary (circuit_in m.now)) result out.new }
{
    let mut names = [0u32; 4097];
    let mut order = [0u32; 3072];
    circuit_numbers::number_circuit(m, p, &mut names, &mut order);
    write_text(m, p, &names, &order, out)
}

// Form 1 of the operation write: puts the circuit that m holds in binary form at the front of out. The text is made apart, so that its
// length is known before a byte of out changes.
pub fn write_binary(m: &[u32], out: &mut [u8]) -> WriteAnswer
    ensures { WrittenBinary m.now out.old (answered result) out.new }
{
    let Some(p) = circuit::test(m) else {
        return WriteAnswer::Refused(9);
    };
    let mut text = [0u8; 24576];
    let length = encode(m, p, &mut text);
    if out.len() < length {
        return WriteAnswer::Refused(13);
    }
    out[..length].copy_from_slice(&text[..length]);
    WriteAnswer::Length(length)
}
