// The numbers that the variables of a circuit in memory have in the binary form, and the order of its gates.
#![tactic(auto)]

ghost use Rattle.std.specs.Prelude.{◌≡◌, ℕ, ◌+◌, ◌*◌, ◌≤◌, ◌<◌, length};
ghost use Rattle.aiger.specs.Memory.{Holds};
ghost use Rattle.layout.specs.Layout.{LayoutOf};
ghost use Rattle.layout.specs.Words.{word, circuit_in};
ghost use Rattle.gate_order.specs.Waiting.{Gates, Apart, Numbered};
ghost use Rattle.renumbered.specs.Renumbered.{leaf_numbers};
ghost use Rattle.circuit_numbers.specs.Numbers.{Read, AllNumbered};

use layout::Layout;

// Reads the variables of n gates, three words each from `first` on, and those of their operands, two for each gate.
fn read_gates(m: &[u32], first: usize, n: usize, vars: &mut [u32], ops: &mut [u32])
    requires { (first + 3 * n ≤ length m.now) × (n ≤ length vars.old) × (2 * n ≤ length ops.old) }
    ensures { Read m.now first n vars.new ops.new }
{
    for i in 0..n {
        let p = first + 3 * i;
        vars[i] = m[p] / 2;
        ops[2 * i] = m[p + 1] / 2;
        ops[2 * i + 1] = m[p + 2] / 2;
    }
}

// Numbers gates that are given by their variables and those of their operands, with working words of its own.
fn number_read(vars: &[u32], ops: &[u32], k: u32, names: &mut [u32], order: &mut [u32]) -> usize
    requires gates { Gates vars.now ops.now names.old × Apart vars.now × (length names.old ≤ 4097) }
    requires vars_in_bounds { (length vars.now ≤ length order.old) × (k + length vars.now ≤ 10000) × (0 < k) }
    ensures { Numbered vars.now ops.now k names.old order.old result names.new
        order.new }
{
    let n = vars.len();
    let mut links = [0u32; 10241];
    let mut waiting = [0u32; 3072];
    gate_order::number_gates(vars, ops, k, names, order, &mut links, &mut waiting[..n])
}

// Numbers the gates of the circuit in m, whose inputs and latches have numbers.
fn number_listed(m: &[u32], p: Layout, names: &mut [u32], order: &mut [u32])
    requires holds { Holds m.now (circuit_in m.now) }
    requires layout_of { LayoutOf m.now p }
    requires names_value { (names.old ≡ leaf_numbers (circuit_in m.now)) × (3072 ≤ length order.old) }
    ensures { AllNumbered (circuit_in m.now) order.old names.new order.new }
{
    let a = p.a;
    let k = (p.i + p.l + 1) as u32;
    let mut vars = [0u32; 3072];
    let mut ops = [0u32; 6144];
    read_gates(m, p.gates, a, &mut vars, &mut ops);
    number_read(&vars[..a], &ops[..2 * a], k, names, order);
}

// Numbers the variables of the circuit in m: inputs, latches, then gates, which it lists in their order. names is all 0 before.
pub fn number_circuit(m: &[u32], p: Layout, names: &mut [u32], order: &mut [u32])
    requires holds { Holds m.now (circuit_in m.now) }
    requires layout_of { LayoutOf m.now p }
    requires names_len { (length names.old ≡ 4097) × ((v : ℕ) → word names.old v ≡ 0) × (3072 ≤ length order.old) }
    ensures { AllNumbered (circuit_in m.now) order.old names.new order.new }
{
    renumber::number_inputs(m, p.i, names);
    renumber::number_triples(m, p.latches, p.l, (p.i + 1) as u32, names);
    number_listed(m, p, names, order);
}
