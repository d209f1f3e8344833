// The first hit of one frame: its sequences are tried in counting order, 64 at a time.
#![tactic(auto)]

ghost use Rattle.std.specs.Prelude.{◌≡◌, cond, ℕ, ◌+◌, ◌*◌, ◌≤◌, ◌<◌, eqb, length};
ghost use Rattle.aiger.specs.Bits.{bit};
ghost use Rattle.aiger.specs.Circuit.{var};
ghost use Rattle.aiger.specs.Frames.{free_bits, free_starts, free_bit};
ghost use Rattle.aiger.specs.Search.{reaches, onward};
ghost use Rattle.aiger.specs.Memory.{Holds};
ghost use Rattle.literals.specs.Literal.{word_of};
ghost use Rattle.layout.specs.Words.{word, circuit_in};
ghost use Rattle.layout.specs.Layout.{LayoutOf};
ghost use Rattle.meaning.specs.Frame.{input_at, latch_at};
ghost use Rattle.frames.specs.Lanes.{Ready};
ghost use Rattle.frames.specs.Starts.{start_bit};
ghost use Rattle.enumeration.specs.Blocks.{Given, FirstFrame, NextFrame, First, Onward};
ghost use Rattle.enumeration.specs.Frame.{FreeBits, FrameIs};

use layout::Layout;
use literals::Lit;

// What a frame has: a first hit; no hit; or more sequences than the budget, of which the first ones do not hit.
#[derive(Clone, Copy)]
pub enum Frame {
    Hit,
    Clear,
    Spent,
}

// What is asked: whether bad line b is hit at frame t, in sequences of n free bits, the first `free` of which are latches' starts.
#[derive(Clone, Copy)]
pub struct Question {
    pub b: usize,
    pub t: usize,
    pub n: usize,
    pub free: usize,
}

// The places from `from` up to `to`.
#[derive(Clone, Copy)]
pub struct Span {
    pub from: u64,
    pub to: u64,
}

// The number of a block of 64 sequences, and how many of their free bits are left for the inputs from a frame on.
#[derive(Clone, Copy)]
struct Block {
    number: u64,
    top: usize,
}

// The start values of a latch in a block of 64 sequences. Where its start is free it has bit k of each sequence.
fn start_word(lit: Lit, reset: Lit, k: usize, block: u64) -> u64
    ensures { (p : ℕ) → p < 64 → bit result p ≡ cond (eqb (word_of reset) (word_of lit)) (bit (block * 64 + p) k) (eqb (word_of reset) 1) }
{
    if reset.equals(lit) {
        return words::counting_word(k, block);
    }
    if reset.is_true() {
        0xffff_ffff_ffff_ffff
    } else {
        0
    }
}

// Gives each latch its start values. The free bits of a sequence are its bits from n - 1 down.
fn put_starts(m: &[u32], layout: Layout, n: usize, block: u64, values: &mut [u64])
    requires holds { Holds m.now (circuit_in m.now) }
    requires layout_of { LayoutOf m.now layout }
    requires m_in_bounds { (word m.now 0 < length values.old) × (free_starts (circuit_in m.now) ≤ n) }
    ensures { Given (λ j. var (latch_at (circuit_in m.now) j).lit)
        (λ j p. start_bit (circuit_in m.now) n (block * 64 + p) j) (length (circuit_in m.now).latches)
        values.old values.new }
{
    let count = layout.l;
    let latches = layout.latches;
    let mut left = n;
    for j in 0..count {
        let lit = Lit::from_word(m[latches + 3 * j]);
        let reset = Lit::from_word(m[latches + 3 * j + 2]);
        left -= layout::free_start(lit, reset);
        let v = lit.var();
        let place = v.0 as usize;
        values[place] = start_word(lit, reset, left, block);
    }
}

// Gives each input its values in a frame: the bits of each sequence from top - 1 down.
pub fn put_inputs(m: &[u32], layout: Layout, top: usize, block: u64, values: &mut [u64])
    requires holds { Holds m.now (circuit_in m.now) }
    requires layout_of { LayoutOf m.now layout }
    requires m_in_bounds { (word m.now 0 < length values.old) × (layout.i ≤ top) }
    ensures { Given (λ i. var (input_at (circuit_in m.now) i)) (λ i p. free_bit top (block * 64 + p) i)
        (length (circuit_in m.now).inputs) values.old values.new }
{
    let count = layout.i;
    for i in 0..count {
        let v = Lit::from_word(m[7 + i]).var();
        let place = v.0 as usize;
        values[place] = words::counting_word(top - (i + 1), block);
    }
}

// The values of frame 0 in a block of 64 sequences, and in which of them its constraints hold. n is the number of free bits, top that of
// the inputs.
fn first_frame(
    m: &[u32],
    layout: Layout,
    order: &[u32],
    n: usize,
    top: usize,
    block: u64,
    values: &mut [u64],
) -> u64
    requires ready { Ready m.now layout order.now (length values.old) }
    requires m_bound { (free_starts (circuit_in m.now) ≤ n) × (layout.i ≤ top) }
    ensures { FirstFrame (circuit_in m.now) n top block values.new result }
{
    values[0] = 0;
    put_starts(m, layout, n, block, values);
    put_inputs(m, layout, top, block, values);
    frames::eval_gates(m, layout, order, values);
    frames::constrain(m, layout, order, 0xffff_ffff_ffff_ffff, values)
}

// The values of the next frame, and in which of the sequences `from` its constraints hold.
fn next_frame(
    m: &[u32],
    layout: Layout,
    order: &[u32],
    block: Block,
    from: u64,
    values: &mut [u64],
    state: &mut [u64],
) -> u64
    requires ready { Ready m.now layout order.now (length values.old) }
    requires i_le_top { (layout.i ≤ block.top) × (1024 ≤ length state.old) }
    ensures { NextFrame (circuit_in m.now) block.top block.number from values.old values.new result }
{
    frames::advance(m, layout, order, values, state);
    put_inputs(m, layout, block.top, block.number, values);
    frames::eval_gates(m, layout, order, values);
    frames::constrain(m, layout, order, from, values)
}

// Which of the 64 sequences of a block hit. The frames after one by which every sequence of the block has broken a constraint are not
// evaluated.
pub fn block_hits(
    m: &[u32],
    layout: Layout,
    order: &[u32],
    q: Question,
    block: u64,
    values: &mut [u64],
    state: &mut [u64],
) -> u64
    requires ready { Ready m.now layout order.now (length values.old) }
    requires b_bound { (q.b < word m.now 5) × (1024 ≤ length state.old) }
    requires n_value { (q.n ≡ free_bits (circuit_in m.now) q.t) × (q.free ≡ free_starts (circuit_in m.now)) }
    ensures { (p : ℕ) → p < 64 → bit result p ≡ reaches (circuit_in m.now) q.b q.t (block * 64 + p) }
{
    let inputs = layout.i;
    let t = q.t;
    let mut top = q.n - q.free;
    let mut left = first_frame(m, layout, order, q.n, top, block, values);
    for _ in 0..t {
        if left == 0 {
            return 0;
        }
        top -= inputs;
        left = next_frame(
            m,
            layout,
            order,
            Block { number: block, top },
            left,
            values,
            state,
        );
    }
    left & frames::bad_word(m, layout, order, q.b, values)
}

// Writes the free bits of sequence x.
pub fn put_free(x: u64, n: usize, free: &mut [u32])
    requires { n ≤ length free.old }
    ensures { FreeBits n x free.new }
{
    for j in 0..n {
        free[j] = places::bit_of(x, n - (j + 1));
    }
}

// The word of a block of 64 places without the places before lo.
fn onward_word(hits: u64, block: u64, lo: u64) -> u64
    requires { block ≤ 144115188075855872 }
    ensures { Onward hits block lo result }
{
    let first = 64 * block;
    if lo <= first {
        return hits;
    }
    let q = lo - first;
    if 63 < q {
        return 0;
    }
    let size = 1u64 << q;
    hits / size * size
}

// The first place of the span that hits, or its end. values and state are scratch.
fn scan_span(
    m: &[u32],
    layout: Layout,
    order: &[u32],
    q: Question,
    span: Span,
    values: &mut [u64],
    state: &mut [u64],
) -> u64
    requires ready { Ready m.now layout order.now (length values.old) }
    requires b_bound { (q.b < word m.now 5) × (1024 ≤ length state.old) × (span.to ≤ 9223372036854775808)
        × (span.from ≤ 9223372036854775808) }
    requires n_value { (q.n ≡ free_bits (circuit_in m.now) q.t) × (q.free ≡ free_starts (circuit_in m.now)) }
    ensures { First (onward span.from (reaches (circuit_in m.now) q.b q.t)) span.to result }
{
    let from = span.from;
    let total = span.to;
    for block in from / 64..total.div_ceil(64) {
        let all = block_hits(m, layout, order, q, block, values, state);
        let hits = onward_word(all, block, from);
        let p = u64::from(words::first_difference(hits, 0));
        if p < 64 {
            return total.min(64 * block + p);
        }
    }
    total
}

// The first place of the span that hits, or its end.
pub fn first_in(m: &[u32], layout: Layout, order: &[u32], q: Question, span: Span) -> u64
    requires ready { Ready m.now layout order.now 4097 }
    requires b_bound { (q.b < word m.now 5) × (span.to ≤ 9223372036854775808) × (span.from ≤ 9223372036854775808) }
    requires n_value { (q.n ≡ free_bits (circuit_in m.now) q.t) × (q.free ≡ free_starts (circuit_in m.now)) }
    ensures { First (onward span.from (reaches (circuit_in m.now) q.b q.t)) span.to result }
{
    let mut values = [0u64; 4097];
    let mut state = [0u64; 1024];
    scan_span(m, layout, order, q, span, &mut values, &mut state)
}

// The first sequence below total that hits, or total.
fn first_below(m: &[u32], layout: Layout, order: &[u32], q: Question, total: u64) -> u64
    requires ready { Ready m.now layout order.now 4097 }
    requires b_bound { (q.b < word m.now 5) × (total ≤ 4294967296) }
    requires n_value { (q.n ≡ free_bits (circuit_in m.now) q.t) × (q.free ≡ free_starts (circuit_in m.now)) }
    ensures { First (reaches (circuit_in m.now) q.b q.t) total result }
{
    let all = Span { from: 0, to: total };
    first_in(m, layout, order, q, all)
}

// The first hit of b at frame t. Where there is one its free bits are left at the front of working memory.
pub fn first_hit(
    m: &[u32],
    layout: Layout,
    order: &[u32],
    b: usize,
    t: usize,
    d: u64,
    work: &mut [u32],
) -> Frame
    requires ready { Ready m.now layout order.now 4097 }
    requires b_bound { (b < word m.now 5) × (t ≤ 255) × (1 ≤ d) × (d ≤ 4294967296) }
    requires t_in_bounds { free_bits (circuit_in m.now) t ≤ length work.old }
    ensures { FrameIs (circuit_in m.now) b t d work.new result }
{
    let free = layout.u;
    let n = free + layout.i * (t + 1);
    let total = places::tries(n, d);
    let x = first_below(m, layout, order, Question { b, t, n, free }, total);
    if x < total {
        put_free(x, n, work);
        return Frame::Hit;
    }
    if places::covers(n, d) {
        Frame::Clear
    } else {
        Frame::Spent
    }
}
