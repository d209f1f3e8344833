// Three-valued simulation of a witness that may hold `x`, frame by frame. Entry l of `can` is 1 where literal l may be true in some
// completion; where in no frame an entry is 1 that a hit excludes, every completion hits.
#![tactic(auto)]

ghost use Rattle.std.specs.Prelude.{◌≡◌, true, cond, ℕ, ◌+◌, ◌*◌, ◌≤◌, ◌<◌, T, eqb, length, get_or, replicate};
ghost use Rattle.literals.specs.Literal.{literal, word_of};
ghost use Rattle.completions.specs.Either.{all_pass, shows};
ghost use Rattle.layout.specs.Words.{word, gate_in, circuit_in};
ghost use Rattle.frames.specs.Lanes.{Ready};
ghost use Rattle.blocks.specs.Runs.{Fits};
ghost use Rattle.ternary.specs.Cover.{Room, LineRoom, column_var};
ghost use Rattle.ternary.specs.Entries.{
  may_of,
  put,
  conjunction,
  of_byte,
  put_below,
  gate_step,
  gates_below,
  line_of,
  frame_step,
  latches_from,
  next_of,
  row_at,
  entries_at,
  sure,
  sure_below,
  start_agrees,
  starts_agree,
  sees_hit,
};

use blocks::Question;
use layout::Layout;
use literals::{Lit, Var};

// Where the literals of a line of bits stand in circuit memory: count of them, step words apart.
#[derive(Clone, Copy)]
struct Column {
    first: usize,
    step: usize,
    count: usize,
}

// What a literal may be in some completion: `high` is 1 where it may be true, `low` where it may be false.
#[derive(Clone, Copy)]
struct May {
    high: u8,
    low: u8,
}

// What literal l may be. The word of its complement differs in the last bit.
fn read(can: &[u8], l: Lit) -> May
    requires { 2 * l.0.0 + 1 < length can.now }
    ensures { result ≡ may_of can.now l }
{
    let own = l.word() as usize;
    May {
        high: can[own],
        low: can[own ^ 1],
    }
}

// Stores entries 2k and 2k + 1.
fn store(entries: &mut [u8], k: usize, x: May)
    requires { 2 * k + 1 < length entries.old }
    ensures { entries.new ≡ put k x entries.old }
{
    entries[2 * k] = x.high;
    entries[2 * k + 1] = x.low;
}

// Gives variable v its entries.
fn put(can: &mut [u8], v: Var, x: May)
    requires { 2 * v.0 + 1 < length can.old }
    ensures { can.new ≡ put v.0 x can.old }
{
    let k = v.0 as usize;
    store(can, k, x);
}

fn both(x: u8, y: u8) -> u8
    ensures { result ≡ cond (eqb x 1) y 0 }
{
    if x == 1 { y } else { 0 }
}

fn one_of(x: u8, y: u8) -> u8
    ensures { result ≡ cond (eqb x 1) 1 y }
{
    if x == 1 { 1 } else { y }
}

// 0 for one byte, else 1.
fn unless(byte: u8, no: u8) -> u8
    ensures { result ≡ cond (eqb byte no) 0 1 }
{
    if byte == no { 0 } else { 1 }
}

// What a conjunction may be.
fn conjunction(x: May, y: May) -> May
    ensures { result ≡ conjunction x y }
{
    May {
        high: both(x.high, y.high),
        low: one_of(x.low, y.low),
    }
}

// What the bit in place of a byte of a witness may be.
fn from_byte(byte: u8) -> May
    ensures { result ≡ of_byte byte }
{
    May {
        high: unless(byte, b'0'),
        low: unless(byte, b'1'),
    }
}

// Every literal may be true.
fn fill(can: &mut [u8])
    ensures { can.new ≡ replicate (length can.old) 1 }
{
    let mut i = 0;
    while i < can.len() {
        can[i] = 1;
        i += 1;
    }
}

// Gives each variable of a column what the bit that stands for it in the line at `at` allows.
fn put_line(m: &[u32], column: Column, text: &[u8], at: usize, can: &mut [u8])
    requires { LineRoom m.now column text.now at (length can.old) }
    ensures { can.new ≡ put_below (column_var m.now column) (line_of text.now at) column.count can.old }
{
    let first = column.first;
    let step = column.step;
    let count = column.count;
    let mut i = 0;
    while i < count {
        let v = Lit::from_word(m[first + step * i]).var();
        put(can, v, from_byte(text[at + i]));
        i += 1;
    }
}

// Gives the gate whose words stand at `at` what its operands allow.
fn cover_gate(m: &[u32], at: usize, can: &mut [u8])
    requires { Room m.now at (length can.old) }
    ensures { can.new ≡ gate_step (gate_in m.now at) can.old }
{
    let x = read(can, Lit::from_word(m[at + 1]));
    let y = read(can, Lit::from_word(m[at + 2]));
    put(can, Lit::from_word(m[at]).var(), conjunction(x, y));
}

// The same for all gates, operands before the gates that use them.
fn cover_gates(m: &[u32], layout: Layout, order: &[u32], can: &mut [u8])
    requires { Ready m.now layout order.now 4097 × (8194 ≤ length can.old) }
    ensures { can.new ≡ gates_below (circuit_in m.now) order.now layout.a can.old }
{
    let count = layout.a;
    let gates = layout.gates;
    let mut k = 0;
    while k < count {
        let g = order[k] as usize;
        cover_gate(m, gates + 3 * g, can);
        k += 1;
    }
}

// What the next literals may be, two entries for each latch.
fn save_state(m: &[u32], layout: Layout, order: &[u32], can: &[u8], state: &mut [u8])
    requires { Ready m.now layout order.now 4097 × (8194 ≤ length can.now) × (2048 ≤ length state.old) }
    ensures { state.new ≡ put_below (λ j. j) (next_of (circuit_in m.now) can.now) layout.l state.old }
{
    let count = layout.l;
    let latches = layout.latches;
    let mut j = 0;
    while j < count {
        let next = Lit::from_word(m[latches + 3 * j + 1]);
        store(state, j, read(can, next));
        j += 1;
    }
}

// Gives each latch what was saved for it.
fn put_state(m: &[u32], layout: Layout, order: &[u32], state: &[u8], can: &mut [u8])
    requires { Ready m.now layout order.now 4097 × (8194 ≤ length can.old) × (2048 ≤ length state.now) }
    ensures { can.new
        ≡ put_below (λ j. (literal (word m.now (layout.latches + 3 * j))).0.0)
        (λ j. record { high = get_or state.now (2 * j) 0; low = get_or state.now (2 * j + 1) 0 }) layout.l
        can.old }
{
    let count = layout.l;
    let latches = layout.latches;
    let mut j = 0;
    while j < count {
        let v = Lit::from_word(m[latches + 3 * j]).var();
        let saved = May {
            high: state[2 * j],
            low: state[2 * j + 1],
        };
        put(can, v, saved);
        j += 1;
    }
}

// Whether a latch's start value agrees with its reset, whatever the byte allows.
fn start_agrees(lit: Lit, reset: Lit, byte: u8) -> bool
    ensures { result ≡ start_agrees (word_of lit) (word_of reset) byte }
{
    if reset.equals(lit) {
        return true;
    }
    if byte == b'1' {
        return reset.is_true();
    }
    if byte == b'0' {
        return reset.complement().is_true();
    }
    false
}

// Whether the start values agree with the resets in every completion.
fn starts_agree(m: &[u32], layout: Layout, order: &[u32], body: &[u8]) -> bool
    requires { Ready m.now layout order.now 4097 × (layout.l ≤ length body.now) }
    ensures { result ≡ starts_agree (circuit_in m.now) body.now }
{
    let count = layout.l;
    let latches = layout.latches;
    let mut j = 0;
    while j < count {
        let lit = Lit::from_word(m[latches + 3 * j]);
        let reset = Lit::from_word(m[latches + 3 * j + 2]);
        if !start_agrees(lit, reset, body[j]) {
            return false;
        }
        j += 1;
    }
    true
}

// Whether a literal is true in every completion.
fn is_sure(can: &[u8], l: Lit) -> bool
    requires { 2 * l.0.0 + 1 < length can.now }
    ensures { result ≡ sure can.now (word_of l) }
{
    read(can, l).low == 0
}

// Whether every constraint is.
fn surely_allowed(m: &[u32], layout: Layout, order: &[u32], can: &[u8]) -> bool
    requires { Ready m.now layout order.now 4097 × (8194 ≤ length can.now) }
    ensures { result ≡ sure_below (circuit_in m.now) can.now }
{
    let count = layout.c;
    let constraints = layout.constraints;
    let mut k = 0;
    while k < count {
        if !is_sure(can, Lit::from_word(m[constraints + k])) {
            return false;
        }
        k += 1;
    }
    true
}

// Whether bad line b is.
fn surely_bad(m: &[u32], layout: Layout, order: &[u32], b: usize, can: &[u8]) -> bool
    requires { Ready m.now layout order.now 4097 × (b < word m.now 5) × (8194 ≤ length can.now) }
    ensures { result ≡ sure can.now (get_or (circuit_in m.now).bads b 0) }
{
    let bads = layout.bads;
    is_sure(can, Lit::from_word(m[bads + b]))
}

// The constant, the inputs with the row at `at`, and the gates.
fn put_frame(m: &[u32], layout: Layout, order: &[u32], body: &[u8], at: usize, can: &mut [u8])
    requires { Ready m.now layout order.now 4097 × (8194 ≤ length can.old) × (at + layout.i ≤ length body.now) }
    ensures { can.new ≡ frame_step (circuit_in m.now) order.now body.now at can.old }
{
    can[0] = 0;
    let inputs = Column {
        first: 7,
        step: 1,
        count: layout.i,
    };
    put_line(m, inputs, body, at, can);
    cover_gates(m, layout, order, can);
}

// Frame 0: the latches have the start values.
fn first_frame(m: &[u32], layout: Layout, order: &[u32], body: &[u8], can: &mut [u8])
    requires { Ready m.now layout order.now 4097 × (8194 ≤ length can.old) × (layout.l + 1 + layout.i ≤ length body.now) }
    ensures { can.new
        ≡ entries_at (length can.old) (circuit_in m.now) order.now body.now 0 }
{
    fill(can);
    let latches = Column {
        first: layout.latches,
        step: 3,
        count: layout.l,
    };
    put_line(m, latches, body, 0, can);
    put_frame(m, layout, order, body, layout.l + 1, can);
}

// The next frame: the latches have what their next literals were. state is scratch.
fn next_frame(
    m: &[u32],
    layout: Layout,
    order: &[u32],
    body: &[u8],
    at: usize,
    can: &mut [u8],
    state: &mut [u8],
)
    requires { Ready m.now layout order.now 4097 × (8194 ≤ length can.old) × (2048 ≤ length state.old)
        × (at + layout.i ≤ length body.now) }
    ensures { (can.new
        ≡ frame_step (circuit_in m.now) order.now body.now at
        (latches_from (circuit_in m.now) (next_of (circuit_in m.now) can.old) (length can.old)))
        × (state.new
        ≡ put_below (λ j. j) (next_of (circuit_in m.now) can.old) layout.l state.old) }
{
    save_state(m, layout, order, can, state);
    fill(can);
    put_state(m, layout, order, state, can);
    put_frame(m, layout, order, body, at, can);
}

// Whether a body is seen to hit in every completion, frame after frame.
fn simulate(
    m: &[u32],
    layout: Layout,
    order: &[u32],
    q: Question,
    body: &[u8],
    can: &mut [u8],
    state: &mut [u8],
) -> bool
    requires { Ready m.now layout order.now 4097 × (q.bad < word m.now 5) × (8194 ≤ length can.old) × (2048 ≤ length state.old)
        × Fits (circuit_in m.now) q.bad q.frames q.eithers body.now }
    ensures { result ≡ sees_hit (length can.old) (circuit_in m.now) order.now q.bad q.frames
        body.now }
{
    let width = layout.i + 1;
    let frames = q.frames;
    if !starts_agree(m, layout, order, body) {
        return false;
    }
    let mut at = layout.l + 1;
    first_frame(m, layout, order, body, can);
    let mut u = 1;
    while u < frames {
        if !surely_allowed(m, layout, order, can) {
            return false;
        }
        at += width;
        next_frame(m, layout, order, body, at, can, state);
        u += 1;
    }
    if !surely_allowed(m, layout, order, can) {
        return false;
    }
    surely_bad(m, layout, order, q.bad, can)
}

// Whether a three-valued pass over a body shows that every completion hits. Where it does, every one does; where it does not, every
// completion may still hit.
pub fn every_completion(m: &[u32], layout: Layout, order: &[u32], q: Question, body: &[u8]) -> bool
    requires { Ready m.now layout order.now 4097 × (q.bad < word m.now 5)
        × Fits (circuit_in m.now) q.bad q.frames q.eithers body.now }
    ensures { (result ≡ sees_hit 8194 (circuit_in m.now) order.now q.bad q.frames body.now)
        × (result ≡ true → T (all_pass (shows (circuit_in m.now) q.bad) body.now)) }
{
    let mut can = [1u8; 8194];
    let mut state = [0u8; 2048];
    simulate(m, layout, order, q, body, &mut can, &mut state)
}
