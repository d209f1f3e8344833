// One layer of states: its first hit, or the layer after it.
#![tactic(auto)]

ghost use Rattle.std.specs.Prelude.{◌≡◌, true, List, [], map, ℕ, suc, ◌+◌, ◌-◌, ◌*◌, ◌^◌, ◌≤◌, ◌<◌, min, T, length, get_or};
ghost use Rattle.aiger.specs.Bits.{bit};
ghost use Rattle.aiger.specs.Circuit.{var};
ghost use Rattle.aiger.specs.Frames.{value};
ghost use Rattle.layout.specs.Words.{word, circuit_in};
ghost use Rattle.frames.specs.Lanes.{lane, Ready};
ghost use Rattle.machine.specs.Layers.{Entry, started};
ghost use Rattle.states.specs.Number.{number_at};
ghost use Rattle.states.specs.Table.{Fits, count_of, TallyFits};
ghost use Rattle.aiger.specs.Memory.{Holds};
ghost use Rattle.layout.specs.Layout.{LayoutOf};
ghost use Rattle.states.specs.Trace as trace;
ghost use Rattle.influence.specs.Part.{Listed, Closed, part_in};
ghost use Rattle.transitions.specs.Transitions.{number_of, machine_of};
ghost use Rattle.layers.specs.Rows.{leading, Fitting, RowsMet, RowStep, FirstRow, Allowed, BlockMet};
ghost use Rattle.layers.specs.Asked.{AskedOf};

use layout::Layout;
use literals::Lit;
use states::Table;

// What a layer has: a first hit, by its record and row; or none, and the number of records with those of the next layer, or that there
// are more than there may be.
// An enum of its own: three outcomes, of which none is a failure.
#[derive(Clone, Copy)]
pub enum Asked {
    Hit(usize, usize),
    Next(usize),
    Full,
}

// A layer that is asked: where the parts of its circuit stand, the bad line, its records lo to hi - 1, and how many records there may be.
#[derive(Clone, Copy)]
pub struct Layer {
    pub layout: Layout,
    pub b: usize,
    pub lo: usize,
    pub hi: usize,
    pub quota: usize,
    pub table: Table,
}

// The first `count` start places, and how many records there may be.
#[derive(Clone, Copy)]
pub struct Starts {
    pub count: usize,
    pub quota: usize,
    pub table: Table,
}

// The 64 rows of block `block`, asked for bad line b.
#[derive(Clone, Copy)]
struct Query {
    b: usize,
    block: u64,
}

// What is found of the rows of a block: the first with which the state hits, or 64, and those that break no constraint.
#[derive(Clone, Copy)]
struct Judged {
    first: u32,
    allowed: u64,
}

// Block `block` of record e, its rows that break no constraint, the states met, and how many records there may be.
#[derive(Clone, Copy)]
struct Block {
    e: u32,
    block: usize,
    allowed: u64,
    met: Option<usize>,
    quota: usize,
    table: Table,
}

// Rows `first` to `first + n - 1` of record e, and how many records there may be.
#[derive(Clone, Copy)]
struct Span {
    e: u32,
    first: u32,
    n: u32,
    quota: usize,
    table: Table,
}

// The states met, and the rows that are left to be met: those that break no constraint and lead where no row before them leads.
#[derive(Clone, Copy)]
struct Pending {
    met: Option<usize>,
    left: u64,
}

// The bits of x that have the value of bit p.
fn alike(x: u64, p: u32) -> u64
    requires { p < 64 }
    ensures { ((q : ℕ) → q < 64 → bit result q ≡ true → bit x q ≡ bit x p) × (bit result p ≡ true) }
{
    words::literal_word(x, (x >> p) % 2 == 0)
}

// The latches of a word of a state in row p. Word i of state is the i-th of them, row by row.
fn pack(state: &[u64], p: u32) -> u32
    requires { (length state.now ≤ 32) × (p < 64) }
    ensures { result ≡ number_of (map (λ w. bit w p) state.now) }
{
    let mut n: u64 = 0;
    for i in (0..state.len()).rev() {
        n = 2 * n + (state[i] >> p) % 2;
    }
    n as u32
}

// Leaves in s the state of row p, 32 latches a word. Word i of state is the i-th latch that is kept, row by row.
fn pack_words(state: &[u64], p: u32, s: &mut [u32])
    requires { (p < 64) × (length state.now ≤ 32 * length s.old) × (32 * length s.old < length state.now + 32) }
    ensures { number_at s.new 0 (length s.old) ≡ number_of (map (λ w. bit w p) state.now) }
{
    for j in 0..s.len() {
        let from = 32 * j;
        let end = transitions::word_end(from, state.len());
        s[j] = pack(&state[from..end], p);
    }
}

// Rows that lead to the state that row p leads to, row p among them: the latches that are kept have the same values.
fn same_rows(state: &[u64], p: u32) -> u64
    requires { p < 64 }
    ensures { ((q : ℕ) → q < 64 → bit result q ≡ true → (i : ℕ) → i < length state.now
        → bit (get_or state.now i 0) q ≡ bit (get_or state.now i 0) p)
        × (bit result p ≡ true) }
{
    let mut same: u64 = 0xffff_ffff_ffff_ffff;
    for w in state {
        same = same & alike(*w, p);
    }
    same
}

// Meets the state that row p of a span leads to, which is left. s is scratch.
fn meet_row(
    state: &[u64],
    p: u32,
    span: Span,
    pending: Pending,
    records: &mut [u32],
    s: &mut [u32],
) -> Pending
    requires fits { Fits span.table span.quota (count_of span.quota pending.met) records.old }
    requires p_bound { (p < 64) × (span.first ≤ 65536) × TallyFits span.quota pending.met × (length s.old ≡ span.table.width)
        × (length state.now ≤ 32 * length s.old) × (32 * length s.old < length state.now + 32) }
    ensures { RowStep (λ q. number_of (map (λ w. bit w q) state.now)) span.table span.quota span.e (span.first + p) p
        (count_of span.quota pending.met) pending.left records.old (count_of span.quota result.met) result.left
        records.new
        × TallyFits span.quota result.met }
{
    let tally = pending.met;
    let table = span.table;
    pack_words(state, p, s);
    let others = words::literal_word(same_rows(state, p), true);
    let met = states::meet(records, table, tally, span.quota, s, span.e, span.first + p);
    Pending {
        met,
        left: pending.left & others,
    }
}

// Meets the states that the rows of a span lead to that are left. s is scratch.
fn meet_rows(
    state: &[u64],
    span: Span,
    start: Pending,
    records: &mut [u32],
    s: &mut [u32],
) -> Option<usize>
    requires fits { Fits span.table span.quota (count_of span.quota start.met) records.old }
    requires n_bound { (span.n ≤ 64) × (span.first ≤ 65536) × TallyFits span.quota start.met × (length s.old ≡ span.table.width)
        × (length state.now ≤ 32 * length s.old) × (32 * length s.old < length state.now + 32) }
    ensures { RowsMet (λ p. leading start.left (λ q. number_of (map (λ w. bit w q) state.now)) p) span.table span.quota
        (count_of span.quota start.met) span.e span.first span.n records.old (count_of span.quota result)
        records.new
        × TallyFits span.quota result }
{
    let n = span.n;
    let mut pending = start;
    let mut p = words::first_difference(start.left, 0);
    // A while: the rows that are left say which is next.
    while p < n {
        pending = meet_row(state, p, span, pending, records, s);
        p = words::first_difference(pending.left, 0);
    }
    let met = pending.met;
    met
}

// The number of words of 64 rows that a frame has.
pub fn blocks(inputs: usize) -> usize
    requires { inputs ≤ 16 }
    ensures { result ≡ 2 ^ (inputs - 6) }
{
    if inputs < 6 {
        return 1;
    }
    1usize << (inputs - 6)
}

// How many of the 64 rows of a word are rows.
fn lanes(inputs: usize) -> u32
    requires { inputs ≤ 16 }
    ensures { result ≡ min 64 (2 ^ inputs) }
{
    if 5 < inputs {
        return 64;
    }
    1u32 << inputs
}

// What the rows of a block are with state s. The values are those of the rows.
fn judge_rows(
    m: &[u32],
    layout: Layout,
    order: &[u32],
    query: Query,
    s: &[u32],
    values: &mut [u64],
    kept: &[u32],
) -> Judged
    requires ready { Ready m.now layout order.now (length values.old) }
    requires b_bound { (query.b < word m.now 5) × Closed (part_in m.now kept.now) query.b × (length kept.now ≤ 32 * length s.now) }
    ensures { FirstRow (part_in m.now kept.now) query.b (number_at s.now 0 (length s.now))
        query.block values.new result.first
        × Allowed (circuit_in m.now) values.new result.allowed }
{
    transitions::eval_rows(m, layout, order, s, query.block, values, kept);
    let bad = frames::bad_word(m, layout, order, query.b, values);
    let allowed = frames::constrain(m, layout, order, 0xffff_ffff_ffff_ffff, values);
    let first = words::first_difference(bad & allowed, 0);
    Judged { first, allowed }
}

// The next values of the latches that are kept, row by row: word i is the i-th of them.
fn next_kept(m: &[u32], layout: Layout, values: &[u64], kept: &[u32], state: &mut [u64])
    requires l_in_bounds { (layout.latches + 3 * layout.l ≤ length m.now) × (layout.l ≤ 1024) × (length kept.now ≤ length state.old) }
    requires by_index { (j : ℕ) → j < layout.l → var (word m.now (layout.latches + 3 * j + 1)) < length values.now }
    requires by_index_2 { (i : ℕ) → i < length kept.now → get_or kept.now i 0 < layout.l }
    ensures { (i : ℕ) → i < length kept.now → (p : ℕ) → p < 64
        → bit (get_or state.new i 0) p ≡ value (lane values.now p)
        (word m.now (layout.latches + 3 * get_or kept.now i 0 + 1)) }
{
    let latches = layout.latches;
    for (i, k) in kept.iter().enumerate() {
        let j = *k as usize;
        state[i] = frames::literal_value(values, Lit::from_word(m[latches + 3 * j + 1]));
    }
}

// Meets the states that the rows of a block lead to, where values are those of its rows. A row that breaks a constraint leads to no state.
// Once there are too many states none is met any more. state is scratch.
fn meet_block(
    m: &[u32],
    layout: Layout,
    block: Block,
    values: &[u64],
    kept: &[u32],
    records: &mut [u32],
    state: &mut [u64],
) -> Option<usize>
    requires by_index { (order : List ℕ) × Ready m.now layout order (length values.now) }
    requires fits { Fits block.table block.quota (count_of block.quota block.met) records.old }
    requires fitting { Fitting (length kept.now) block.table.width (length state.old) × (layout.i ≤ 16) × (block.block ≤ 1024)
        × Listed (part_in m.now kept.now) × Allowed (circuit_in m.now) values.now block.allowed
        × TallyFits block.quota block.met }
    ensures { BlockMet (part_in m.now kept.now) values.now block.table block.quota
        (count_of block.quota block.met) block.e block.block records.old (count_of block.quota result)
        records.new
        × TallyFits block.quota result }
{
    let met = block.met;
    let quota = block.quota;
    let table = block.table;
    let Some(_) = met else {
        return None;
    };
    let n = lanes(layout.i);
    let first = (64 * block.block) as u32;
    let count = kept.len();
    let width = table.width;
    let mut s = [0u32; 32];
    next_kept(m, layout, values, kept, state);
    let span = Span {
        e: block.e,
        first,
        n,
        quota,
        table,
    };
    let pending = Pending {
        met,
        left: block.allowed,
    };
    meet_rows(&state[..count], span, pending, records, &mut s[..width])
}

// Asks a layer, each record with each row, for its first hit; the states that they lead to are met on the way, up to quota records.
// What values and state hold afterwards is left open, and after a hit, or where there are too many states, so is what the trace does not
// need of the records and the buckets.
pub fn ask_layer(
    m: &[u32],
    order: &[u32],
    layer: Layer,
    records: &mut [u32],
    values: &mut [u64],
    kept: &[u32],
    state: &mut [u64],
) -> Asked
    requires ready { Ready m.now layer.layout order.now (length values.old) }
    requires b_bound { (layer.b < word m.now 5) × Fitting (length kept.now) layer.table.width (length state.old) × (layer.layout.i ≤ 16)
        × Closed (part_in m.now kept.now) layer.b }
    requires lo_le_hi { (layer.lo ≤ layer.hi) × (layer.hi ≤ layer.quota) × (layer.quota ≤ 262144)
        × Fits layer.table layer.quota layer.hi records.old }
    ensures { (t : ℕ) (es : List Entry)
        → trace.Holds (2 ^ length (circuit_in m.now).inputs) t layer.lo layer.table layer.quota layer.hi
        records.old es
        → AskedOf (part_in m.now kept.now) layer.b t layer.lo layer.table layer.quota
        records.new es result }
{
    let layout = layer.layout;
    let b = layer.b;
    let lo = layer.lo;
    let hi = layer.hi;
    let quota = layer.quota;
    let table = layer.table;
    let width = table.width;
    let words = blocks(layout.i);
    let n = lanes(layout.i);
    let total = (hi - lo) * words;
    let mut met = Some(hi);
    let mut q = 0;
    while q < total {
        let e = lo + q / words;
        let block = q % words;
        let at = (width + 4) * e + 4;
        let end = at + width;
        let query = Query {
            b,
            block: block as u64,
        };
        let judged = judge_rows(m, layout, order, query, &records[at..end], values, kept);
        let p = judged.first;
        if p < n {
            return Asked::Hit(e, 64 * block + p as usize);
        }
        let rows = Block {
            e: e as u32,
            block,
            allowed: judged.allowed,
            met,
            quota,
            table,
        };
        met = meet_block(m, layout, rows, values, kept, records, state);
        q += 1;
    }
    match met {
        Some(count) => Asked::Next(count),
        None => Asked::Full,
    }
}

// Meets the states of start places, in a table without records. Once they are too many the others are not looked at.
// What state and s hold afterwards is left open, and where there are too many so are records and buckets.
pub fn meet_starts(
    m: &[u32],
    layout: Layout,
    starts: Starts,
    records: &mut [u32],
    kept: &[u32],
    state: &mut [u64],
    s: &mut [u32],
) -> Option<usize>
    requires holds { Holds m.now (circuit_in m.now) }
    requires layout_of { LayoutOf m.now layout }
    requires u_bound { (layout.u ≤ 16) × (starts.count ≤ 65536) × Fits starts.table starts.quota 0 records.old × (1024 ≤ length state.old)
        × Listed (part_in m.now kept.now) × Fitting (length kept.now) starts.table.width (length state.old)
        × (length s.old ≡ starts.table.width) }
    ensures { ((rows b : ℕ) → trace.Holds rows 0 0 starts.table starts.quota 0 records.old []
        → trace.Holds rows 0 0 starts.table starts.quota (count_of starts.quota result) records.new
        (started (machine_of (part_in m.now kept.now) b) starts.count))
        × TallyFits starts.quota result }
{
    let count = starts.count;
    let quota = starts.quota;
    let table = starts.table;
    let mut met = Some(0);
    let mut y = 0;
    while y < count {
        let Some(_) = met else {
            return None;
        };
        transitions::start_state(m, layout, y as u64, kept, state, s);
        met = states::meet(records, table, met, quota, s, 0, y as u32);
        y += 1;
    }
    met
}
