// Blocks of 64 completions of a witness: their start values and rows as words, and which of them start as the resets say and hit in their
// last frame.
#![tactic(auto)]

ghost use Rattle.std.specs.Prelude.{◌≡◌, Bool, cond, ◌&&◌, ◌||◌, List, ℕ, ◌+◌, ◌-◌, ◌*◌, ◌^◌, ◌≤◌, ◌<◌, eqb, length, take};
ghost use Rattle.aiger.specs.Bits.{bit};
ghost use Rattle.aiger.specs.Frames.{Run, hits};
ghost use Rattle.aiger.specs.Witness.{agrees};
ghost use Rattle.completions.specs.Either.{is_either, eithers, completion, all_pass};
ghost use Rattle.literals.specs.Literal.{word_of};
ghost use Rattle.layout.specs.Words.{circuit_in};
ghost use Rattle.completions.specs.Forms.{completed};
ghost use Rattle.frames.specs.Lanes.{lane, Ready};
ghost use Rattle.enumeration.specs.Blocks.{Given};
ghost use Rattle.blocks.specs.Runs.{column_var, line_bit, Line, Latches, Started, RunAt, FrameGiven, Posed, wanted};

use layout::Layout;
use literals::Lit;

// Where the literals of a line of bits stand in circuit memory: count of them, step words apart.
#[derive(Clone, Copy)]
struct Column {
    first: usize,
    step: usize,
    count: usize,
}

// What is asked of a body, the lines of a witness after line `b`: its bad line, how many frames it has and how many `x`.
#[derive(Clone, Copy)]
pub struct Question {
    pub bad: usize,
    pub frames: usize,
    pub eithers: usize,
}

// A question about a circuit: where its parts stand in memory, and what is asked.
#[derive(Clone, Copy)]
pub struct Instance {
    pub layout: Layout,
    pub q: Question,
}

// A line of bits of a body in a block of completions: where it stands, and how many `x` stand before it.
#[derive(Clone, Copy)]
pub struct Cursor {
    pub at: usize,
    pub seen: usize,
    pub block: u64,
}

// 1 for `x`, else 0.
pub fn either_of(byte: u8) -> usize
    ensures { result ≡ cond (is_either byte) 1 0 }
{
    if byte == b'x' { 1 } else { 0 }
}

// The values of a bit in a block of completions, where k `x` stand before it.
fn bit_word(byte: u8, k: usize, block: u64) -> u64
    ensures { (p : ℕ) → p < 64 → bit result p ≡ eqb (completed byte (bit (block * 64 + p) k)) 49 }
{
    if byte == b'x' {
        return words::counting_word(k, block);
    }
    if byte == b'1' {
        0xffff_ffff_ffff_ffff
    } else {
        0
    }
}

// Gives each variable of a column its bit of the line at the cursor. The answer is the number of x up to the line's end.
fn put_line(m: &[u32], column: Column, text: &[u8], cursor: Cursor, values: &mut [u64]) -> usize
    requires { Line m.now column text.now cursor.at cursor.seen (length values.old) }
    ensures { Given (column_var m.now column) (line_bit text.now cursor.at cursor.block) column.count
        values.old values.new
        × (result ≡ eithers (take (cursor.at + column.count + 1) text.now)) }
{
    let first = column.first;
    let step = column.step;
    let count = column.count;
    let at = cursor.at;
    let block = cursor.block;
    let mut k = cursor.seen;
    let mut i = 0;
    while i < count {
        let v = Lit::from_word(m[first + step * i]).var();
        let byte = text[at + i];
        let place = v.0 as usize;
        values[place] = bit_word(byte, k, block);
        k += either_of(byte);
        i += 1;
    }
    k + either_of(text[at + count])
}

// In which completions the start value of a latch, whose word is given, agrees with its reset.
fn agree_one(lit: Lit, reset: Lit, word: u64) -> u64
    ensures { (p : ℕ) → p < 64 → bit result p ≡ (eqb (word_of reset) (word_of lit) || eqb (word_of reset) (cond (bit word p) 1 0)) }
{
    if reset.equals(lit) {
        return 0xffff_ffff_ffff_ffff;
    }
    if reset.is_true() {
        return word;
    }
    if reset.is_constant() { !word } else { 0 }
}

// In which completions every start value agrees with its reset, where the latches have their words.
fn agree_word(m: &[u32], layout: Layout, order: &[u32], values: &[u64]) -> u64
    requires { Ready m.now layout order.now (length values.now) }
    ensures { (p : ℕ) → p < 64 → (start : List Bool) → Latches (circuit_in m.now) start (lane values.now p)
        → bit result p ≡ agrees (circuit_in m.now).latches start }
{
    let count = layout.l;
    let latches = layout.latches;
    let mut agree: u64 = 0xffff_ffff_ffff_ffff;
    let mut j = 0;
    while j < count {
        let lit = Lit::from_word(m[latches + 3 * j]);
        let reset = Lit::from_word(m[latches + 3 * j + 2]);
        let place = lit.var().0 as usize;
        agree = agree & agree_one(lit, reset, values[place]);
        j += 1;
    }
    agree
}

// Gives the inputs the row at the cursor and evaluates the gates. The answer is the number of x up to the row's end.
// The words of inputs and gates are promised where the word of the constant is 0.
pub fn put_frame(
    m: &[u32],
    layout: Layout,
    order: &[u32],
    text: &[u8],
    row: Cursor,
    values: &mut [u64],
) -> usize
    requires ready { Ready m.now layout order.now (length values.old) }
    requires i_in_bounds { (row.at + layout.i < length text.now) × (row.seen ≡ eithers (take row.at text.now)) }
    ensures { FrameGiven (circuit_in m.now) text.now row.at row.block values.old values.new
        × (result ≡ eithers (take (row.at + layout.i + 1) text.now)) }
{
    let inputs = Column {
        first: 7,
        step: 1,
        count: layout.i,
    };
    let next = put_line(m, inputs, text, row, values);
    frames::eval_gates(m, layout, order, values);
    next
}

// Gives the constant and the latches their values at the start. The answer is the number of x in the line of start values.
pub fn put_starts(
    m: &[u32],
    layout: Layout,
    order: &[u32],
    body: &[u8],
    block: u64,
    values: &mut [u64],
) -> usize
    requires ready { Ready m.now layout order.now (length values.old) }
    requires l_in_bounds { layout.l < length body.now }
    ensures { Started (circuit_in m.now) body.now block values.old values.new
        × (result ≡ eithers (take (layout.l + 1) body.now)) }
{
    values[0] = 0;
    let latches = Column {
        first: layout.latches,
        step: 3,
        count: layout.l,
    };
    let line = Cursor {
        at: 0,
        seen: 0,
        block,
    };
    put_line(m, latches, body, line, values)
}

// Which completions of a block start as the resets say and hit in their last frame. The frames after one by which none is left that starts
// so and breaks no constraint are not evaluated.
fn block_word(
    m: &[u32],
    order: &[u32],
    w: Instance,
    body: &[u8],
    block: u64,
    values: &mut [u64],
    state: &mut [u64],
) -> u64
    requires posed { Posed m.now order.now w body.now (length values.old) }
    requires in_bounds { 1024 ≤ length state.old }
    ensures { (p : ℕ) → p < 64 → (r : Run)
        → RunAt (circuit_in m.now) (completion (block * 64 + p) body.now) w.q.frames r
        → bit result p ≡ (agrees (circuit_in m.now).latches r.start
        && hits (circuit_in m.now) w.q.bad r (w.q.frames - 1)) }
{
    let layout = w.layout;
    let q = w.q;
    let width = layout.i + 1;
    let frames = q.frames;
    let mut seen = put_starts(m, layout, order, body, block, values);
    let agree = agree_word(m, layout, order, values);
    let mut at = layout.l + 1;
    seen = put_frame(m, layout, order, body, Cursor { at, seen, block }, values);
    let mut left = frames::constrain(m, layout, order, agree, values);
    let mut u = 1;
    while u < frames {
        if left == 0 {
            return 0;
        }
        frames::advance(m, layout, order, values, state);
        at += width;
        seen = put_frame(m, layout, order, body, Cursor { at, seen, block }, values);
        left = frames::constrain(m, layout, order, left, values);
        u += 1;
    }
    left & frames::bad_word(m, layout, order, q.bad, values)
}

// The word whose bits are all b.
fn all_bits(b: bool) -> u64
    ensures { (p : ℕ) → p < 64 → bit result p ≡ b }
{
    if b { 0xffff_ffff_ffff_ffff } else { 0 }
}

// How many blocks the completions of n `x` make: one where there are no more than 64.
pub fn block_count(n: usize) -> u64
    requires { n ≤ 16 }
    ensures { result ≡ 2 ^ (n - 6) }
{
    if n < 7 { 1 } else { 1u64 << (n - 6) }
}

// Whether every completion of a body shows a hit, or, where hits are not wanted, whether none does. What values and state hold afterwards is
// left open.
pub fn every_completion(
    m: &[u32],
    order: &[u32],
    w: Instance,
    body: &[u8],
    want: bool,
    values: &mut [u64],
    state: &mut [u64],
) -> bool
    requires posed { Posed m.now order.now w body.now (length values.old) }
    requires in_bounds { 1024 ≤ length state.old }
    ensures { result ≡ all_pass (wanted (circuit_in m.now) w.q.bad want) body.now }
{
    let q = w.q;
    let blocks = block_count(q.eithers);
    let goal = all_bits(want);
    let mut block = 0;
    while block < blocks {
        let word = block_word(m, order, w, body, block, values, state);
        if words::first_difference(word, goal) < 64 {
            return false;
        }
        block += 1;
    }
    true
}
