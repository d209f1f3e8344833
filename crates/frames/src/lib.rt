// The values of a frame, for 64 runs at a time: the word of a variable has its value in run p as bit p.
#![tactic(auto)]

ghost use Rattle.std.specs.Prelude.{◌≡◌, ◌&&◌, ℕ, ◌+◌, ◌*◌, ◌/◌, ◌≤◌, ◌<◌, length, get_or};
ghost use Rattle.aiger.specs.Bits.{bit};
ghost use Rattle.aiger.specs.Circuit.{var};
ghost use Rattle.aiger.specs.Frames.{value};
ghost use Rattle.literals.specs.Literal.{word_of};
ghost use Rattle.layout.specs.Words.{word, gate_in, circuit_in};
ghost use Rattle.frames.specs.Lanes.{lane, Ready, Evaluated, Advanced, constrained_in, bad_in, GateRoom, Gated, Apart, Stored};

use layout::Layout;
use literals::Lit;

// The word of literal l.
pub fn literal_value(values: &[u64], l: Lit) -> u64
    requires { l.0.0 < length values.now }
    ensures { (p : ℕ) → p < 64 → bit result p ≡ value (lane values.now p) (word_of l) }
{
    let v = l.0.0 as usize;
    let s = l.1 as u64;
    values[v] ^ (s * 0xffff_ffff_ffff_ffff)
}

// Evaluates the gate whose words stand at `at`.
fn eval_gate(m: &[u32], at: usize, values: &mut [u64])
    requires { GateRoom m.now at (length values.old) }
    ensures { Gated (gate_in m.now at) values.old values.new }
{
    let x = literal_value(values, Lit::from_word(m[at + 1]));
    let y = literal_value(values, Lit::from_word(m[at + 2]));
    let v = Lit::from_word(m[at]).var();
    let place = v.0 as usize;
    values[place] = x & y;
}

// Evaluates the gate that stands at place k of the order, where the table begins with the first gate.
fn eval_place(table: &[u32], order: &[u32], k: usize, values: &mut [u64])
    requires k_in_bounds { (k < length order.now) × (get_or order.now k 0 < 3072) }
    requires gate_room { GateRoom table.now (3 * get_or order.now k 0) (length values.old) }
    ensures { Gated (gate_in table.now (3 * get_or order.now k 0)) values.old values.new }
{
    let g = order[k] as usize;
    eval_gate(table, 3 * g, values);
}

// Evaluates all gates, where the constant, the inputs and the latches have their words. A turn of the loop is two gates, so that
// turns are counted half as often; a `for` over `step_by(2)` with the last gate beside it is no plainer.
pub fn eval_gates(m: &[u32], layout: Layout, order: &[u32], values: &mut [u64])
    requires { Ready m.now layout order.now (length values.old) }
    ensures { Evaluated (circuit_in m.now) values.old values.new }
{
    let count = layout.a;
    let gates = layout.gates;
    let table = &m[gates..];
    let mut k = 0;
    while k + 1 < count {
        eval_place(table, order, k, values);
        eval_place(table, order, k + 1, values);
        k += 2;
    }
    if k < count {
        eval_place(table, order, k, values);
    }
}

// In which of the runs `from` every constraint is true in the frame.
pub fn constrain(m: &[u32], layout: Layout, order: &[u32], from: u64, values: &[u64]) -> u64
    requires { Ready m.now layout order.now (length values.now) }
    ensures { (p : ℕ) → p < 64 → bit result p ≡ (bit from p && constrained_in (circuit_in m.now) (lane values.now p)) }
{
    let count = layout.c;
    let constraints = layout.constraints;
    let mut left = from;
    for k in 0..count {
        left &= literal_value(values, Lit::from_word(m[constraints + k]));
    }
    left
}

// In which runs bad line b is true in the frame.
pub fn bad_word(m: &[u32], layout: Layout, order: &[u32], b: usize, values: &[u64]) -> u64
    requires ready { Ready m.now layout order.now (length values.now) }
    requires b_bound { b < word m.now 5 }
    ensures { (p : ℕ) → p < 64 → bit result p ≡ bad_in (circuit_in m.now) b (lane values.now p) }
{
    let bads = layout.bads;
    literal_value(values, Lit::from_word(m[bads + b]))
}

// The words of the next literals.
fn next_state(m: &[u32], layout: Layout, values: &[u64], state: &mut [u64])
    requires l_in_bounds { (layout.latches + 3 * layout.l ≤ length m.now) × (layout.l ≤ length state.old) }
    requires by_index { (j : ℕ) → j < layout.l → var (word m.now (layout.latches + 3 * j + 1)) < length values.now }
    ensures { (j : ℕ) → j < layout.l → (p : ℕ) → p < 64 → bit (get_or state.new j 0) p
        ≡ value (lane values.now p) (word m.now (layout.latches + 3 * j + 1)) }
{
    let count = layout.l;
    let latches = layout.latches;
    for j in 0..count {
        state[j] = literal_value(values, Lit::from_word(m[latches + 3 * j + 1]));
    }
}

// Gives each latch its word.
fn put_state(m: &[u32], layout: Layout, state: &[u64], values: &mut [u64])
    requires l_in_bounds { (layout.latches + 3 * layout.l ≤ length m.now) × (layout.l ≤ length state.now) }
    requires apart { Apart (λ j. var (word m.now (layout.latches + 3 * j))) layout.l (length values.old) }
    ensures { Stored (λ j. var (word m.now (layout.latches + 3 * j))) (λ j. get_or state.now j 0) layout.l
        values.old values.new }
{
    let count = layout.l;
    let latches = layout.latches;
    for j in 0..count {
        let v = Lit::from_word(m[latches + 3 * j]).var();
        let place = v.0 as usize;
        values[place] = state[j];
    }
}

// Gives each latch the word of its next literal, all of them read before the first is written. What state holds afterwards is left open.
pub fn advance(m: &[u32], layout: Layout, order: &[u32], values: &mut [u64], state: &mut [u64])
    requires ready { Ready m.now layout order.now (length values.old) }
    requires in_bounds { 1024 ≤ length state.old }
    ensures { Advanced (circuit_in m.now) values.old values.new }
{
    next_state(m, layout, values, state);
    put_state(m, layout, state, values);
}
