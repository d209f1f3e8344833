// The states of a circuit as numbers, the latches that are kept as bits, 32 a word, and where they lead.
#![tactic(auto)]

ghost use Rattle.std.specs.Prelude.{◌≡◌, cond, map, ℕ, ◌+◌, ◌-◌, ◌*◌, ◌≤◌, ◌<◌, min, eqb, length, get_or};
ghost use Rattle.aiger.specs.Bits.{bit};
ghost use Rattle.aiger.specs.Circuit.{var};
ghost use Rattle.aiger.specs.Frames.{free_starts};
ghost use Rattle.aiger.specs.Memory.{Holds};
ghost use Rattle.literals.specs.Literal.{word_of};
ghost use Rattle.layout.specs.Words.{word, circuit_in};
ghost use Rattle.layout.specs.Layout.{LayoutOf};
ghost use Rattle.meaning.specs.Frame.{latch_at};
ghost use Rattle.frames.specs.Lanes.{lane, Ready};
ghost use Rattle.frames.specs.Starts.{start_bit};
ghost use Rattle.enumeration.specs.Blocks.{Given};
ghost use Rattle.states.specs.Number.{number_at};
ghost use Rattle.influence.specs.Part.{Listed, part_in};
ghost use Rattle.transitions.specs.Transitions.{number_of, ValuedIn, start_number};

use layout::Layout;
use literals::Lit;

// Gives each latch that is kept its bit of s in all 64 runs.
fn put_latches(m: &[u32], layout: Layout, s: &[u32], values: &mut [u64], kept: &[u32])
    requires holds { Holds m.now (circuit_in m.now) }
    requires layout_of { LayoutOf m.now layout }
    requires m_in_bounds { (word m.now 0 < length values.old) × Listed (part_in m.now kept.now) × (length kept.now ≤ 32 * length s.now) }
    ensures { Given (λ i. var (latch_at (circuit_in m.now) (get_or kept.now i 0)).lit)
        (λ i p. bit (number_at s.now 0 (length s.now)) i)
        (length kept.now) values.old values.new }
{
    let latches = layout.latches;
    let count = kept.len();
    let mut i = 0;
    while i < count {
        let j = kept[i] as usize;
        let v = Lit::from_word(m[latches + 3 * j]).var();
        let place = v.0 as usize;
        values[place] = words::counting_word(i % 32 + 6, s[i / 32] as u64);
        i += 1;
    }
}

// The values of state s with the 64 rows of a block.
pub fn eval_rows(
    m: &[u32],
    layout: Layout,
    order: &[u32],
    s: &[u32],
    block: u64,
    values: &mut [u64],
    kept: &[u32],
)
    requires ready { Ready m.now layout order.now (length values.old) }
    requires listed { Listed (part_in m.now kept.now) × (length kept.now ≤ 32 * length s.now) }
    ensures { (p : ℕ) → p < 64
        → ValuedIn (part_in m.now kept.now) (number_at s.now 0 (length s.now)) (block * 64 + p)
        (lane values.new p) }
{
    let inputs = layout.i;
    values[0] = 0;
    put_latches(m, layout, s, values, kept);
    enumeration::put_inputs(m, layout, inputs, block, values);
    frames::eval_gates(m, layout, order, values);
}

// The number whose bits are those of some latches in run p, 32 at most, where word j of state is latch j.
fn pack(state: &[u64], kept: &[u32], p: u32) -> u32
    requires { ((i : ℕ) → i < length kept.now → get_or kept.now i 0 < length state.now) × (length kept.now ≤ 32) × (p < 64) }
    ensures { result ≡ number_of (map (λ j. bit (get_or state.now j 0) p) kept.now) }
{
    let mut n: u64 = 0;
    for i in (0..kept.len()).rev() {
        n = 2 * n + (state[kept[i] as usize] >> p) % 2;
    }
    n as u32
}

// The start value of a latch: bit k of y where its start is free.
fn start_bit(lit: Lit, reset: Lit, y: u64, k: u32) -> u64
    requires { k < 64 }
    ensures { result ≡ cond (cond (eqb (word_of reset) (word_of lit)) (bit y k) (eqb (word_of reset) 1)) 1 0 }
{
    if reset.equals(lit) {
        return (y >> k) % 2;
    }
    if reset.is_true() { 1 } else { 0 }
}

// The start values of all latches at start place y: word j is 1 where latch j is.
fn start_words(m: &[u32], layout: Layout, y: u64, state: &mut [u64])
    requires holds { Holds m.now (circuit_in m.now) }
    requires layout_of { LayoutOf m.now layout }
    requires u_bound { (layout.u ≤ 16) × (1024 ≤ length state.old) }
    ensures { (j : ℕ) → j < layout.l → get_or state.new j 0 ≡ cond
        (start_bit (circuit_in m.now) (free_starts (circuit_in m.now)) y j) 1 0 }
{
    let latches = layout.latches;
    let mut left: u32 = 0;
    let mut j = layout.l;
    while 0 < j {
        j -= 1;
        let lit = Lit::from_word(m[latches + 3 * j]);
        let reset = Lit::from_word(m[latches + 3 * j + 2]);
        state[j] = start_bit(lit, reset, y, left);
        left += layout::free_start(lit, reset) as u32;
    }
}

// The end of the latches of a word, those from `from` on, of `count` latches.
pub fn word_end(from: usize, count: usize) -> usize
    requires { from ≤ count }
    ensures { result ≡ from + min 32 (count - from) }
{
    if count - from < 32 {
        return count;
    }
    from + 32
}

// Leaves in s the latches that are kept, 32 a word, where word j of state is 1 if latch j is.
fn pack_words(state: &[u64], kept: &[u32], s: &mut [u32])
    requires { ((i : ℕ) → i < length kept.now → get_or kept.now i 0 < length state.now) × (length kept.now ≤ 32 * length s.old)
        × (32 * length s.old < length kept.now + 32) }
    ensures { number_at s.new 0 (length s.old)
        ≡ number_of (map (λ j. bit (get_or state.now j 0) 0) kept.now) }
{
    for j in 0..s.len() {
        let from = 32 * j;
        let end = word_end(from, kept.len());
        s[j] = pack(state, &kept[from..end], 0);
    }
}

// Leaves the state of start place y in s. state is scratch.
pub fn start_state(
    m: &[u32],
    layout: Layout,
    y: u64,
    kept: &[u32],
    state: &mut [u64],
    s: &mut [u32],
)
    requires holds { Holds m.now (circuit_in m.now) }
    requires layout_of { LayoutOf m.now layout }
    requires u_bound { (layout.u ≤ 16) × (1024 ≤ length state.old) × Listed (part_in m.now kept.now) × (length kept.now ≤ 32 * length s.old)
        × (32 * length s.old < length kept.now + 32) }
    ensures { number_at s.new 0 (length s.old) ≡ start_number (part_in m.now kept.now) y }
{
    start_words(m, layout, y, state);
    pack_words(state, kept, s);
}
