// From sets of states to the first hit: the values of edges at a state, the least start state of a set, and the walk from there. The words
// of a state have one for each variable: 0 where it is false.
#![tactic(auto)]

ghost use Rattle.std.specs.Prelude.{◌≡◌, Bool, true, ℕ, ◌+◌, ◌*◌, ◌≤◌, ◌<◌, length, get_or};
ghost use Rattle.aiger.specs.Bits.{nonzero};
ghost use Rattle.diagrams.specs.States as D;
ghost use Rattle.diagrams.specs.Meaning as M;
ghost use Rattle.machine.specs.Machine.{Machine};
ghost use Rattle.backward.specs.Walk.{Walking};
ghost use Rattle.state_sets.specs.Shape.{Fits, row_at};
ghost use Rattle.set_walk.specs.Walk as W;
ghost use Rattle.set_walk.specs.Start as S;

use diagrams::Full;
use state_sets::Shape;

// The least start state of a set was found; the set has none; or it is not known.
#[derive(Clone, Copy)]
pub enum Start {
    Least,
    Nowhere,
    Full,
}

fn word(b: bool) -> u32
    ensures { nonzero result ≡ b }
{
    if b {
        return 1;
    }
    0
}

// Whether variable v is true.
fn is_true(bits: &[u32], v: u32) -> bool
    ensures { result ≡ W.bits_of bits.now v }
{
    let at = v as usize;
    if at < bits.len() {
        return bits[at] != 0;
    }
    false
}

// The edge that e leads along at a state.
fn follow(w: &[u32], e: u32, bits: &[u32]) -> u32
    requires built { M.Built (D.state_of w.now).nodes }
    requires le_e { (2 ≤ e) × M.In (D.state_of w.now).nodes e }
    ensures { W.Followed (D.state_of w.now).nodes (W.bits_of bits.now) e result }
{
    let n = diagrams::read(w, e / 2);
    if is_true(bits, n.var) {
        return diagrams::flip(n.hi, e);
    }
    diagrams::flip(n.lo, e)
}

// The value of an edge at a state.
pub fn value_of(w: &[u32], e: u32, bits: &[u32]) -> bool
    requires built { M.Built (D.state_of w.now).nodes }
    requires fact { M.In (D.state_of w.now).nodes e }
    ensures { result ≡ M.value (D.state_of w.now).nodes (W.bits_of bits.now) e }
{
    let mut at = e;
    while 1 < at {
        at = follow(w, at, bits);
    }
    at == 1
}

// The next values of the variables in row r, at a state.
fn next_bits(w: &[u32], table: &[u32], s: Shape, r: usize, bits: &[u32], after: &mut [u32])
    requires legible { W.Legible w.now table.now }
    requires fits { Fits s (length table.now) }
    requires r_lt_rows { (r < s.rows) × (length after.old ≡ s.vars) }
    ensures { W.Moved w.now table.now s.vars r bits.now after.new }
{
    let from = state_sets::row_at(s, r);
    let vars = s.vars;
    let mut v = 0;
    while v < vars {
        after[v] = word(value_of(w, table[from + v], bits));
        v += 1;
    }
}

// Whether row r leads on from a state, with `next` frames to go: into the set of one less, or in the last frame to a hit.
fn leads(
    w: &[u32],
    table: &[u32],
    s: Shape,
    next: usize,
    r: usize,
    bits: &[u32],
    after: &mut [u32],
) -> bool
    requires legible { W.Legible w.now table.now }
    requires fits { Fits s (length table.now) }
    requires r_lt_rows { (r < s.rows) × (length after.old ≡ s.vars) × (next < 256) }
    ensures { W.Leads w.now table.now s.vars next r bits.now after.new result }
{
    let to = state_sets::row_at(s, r) + s.vars;
    if next == 0 {
        return value_of(w, table[to + 1], bits);
    }
    if value_of(w, table[to], bits) {
        next_bits(w, table, s, r, bits, after);
        return value_of(w, table[next - 1], after);
    }
    false
}

// The least row that leads on from a state, or the number of rows.
fn least_row(
    w: &[u32],
    table: &[u32],
    s: Shape,
    next: usize,
    bits: &[u32],
    after: &mut [u32],
) -> usize
    requires legible { W.Legible w.now table.now }
    requires fits { Fits s (length table.now) }
    requires after_len { (length after.old ≡ s.vars) × (next < 256) }
    ensures { W.LeastRow w.now table.now s.vars s.rows next bits.now after.new result }
{
    let rows = s.rows;
    let mut r = 0;
    while r < rows {
        if leads(w, table, s, next, r, bits, after) {
            return r;
        }
        r += 1;
    }
    r
}

// Copies words that are as many.
fn copy(from: &[u32], to: &mut [u32])
    requires { length to.old ≡ length from.now }
    ensures { to.new ≡ from.now }
{
    let mut i = 0;
    while i < to.len() {
        to[i] = from[i];
        i += 1;
    }
}

// The walk to the first hit of frame t from the least start state: leaves the row of each frame in the trace.
pub fn walk(
    w: &[u32],
    table: &[u32],
    s: Shape,
    t: usize,
    bits: &mut [u32],
    after: &mut [u32],
    trace: &mut [u32],
) -> bool
    requires legible { W.Legible w.now table.now }
    requires fits { Fits s (length table.now) }
    requires bits_len { (length bits.old ≡ s.vars) × (length after.old ≡ s.vars) × (t < 256) × (256 ≤ length trace.old) }
    ensures { (level : ℕ) (m : Machine) (n : ℕ) (at : ℕ → M.Assignment) (g : W.Setting level m n at s t w.now table.now)
        (y : ℕ) → Walking m t 0 0 y (m.start y) → W.bits_of bits.old ≡ at (m.start y) → W.Ended g y trace.new result }
{
    let rows = s.rows;
    let mut f = 0;
    while f < t {
        let r = least_row(w, table, s, t - f, bits, after);
        if rows <= r {
            return false;
        }
        trace[f] = r as u32;
        copy(after, bits);
        f += 1;
    }
    let last = least_row(w, table, s, 0, bits, after);
    if rows <= last {
        return false;
    }
    trace[t] = last as u32;
    true
}

// The states of e in which variable v is false.
fn without(w: &mut [u32], e: u32, v: u32) -> Result<u32, Full>
    ensures { D.left w.new result ≡ S.without e v (D.state_of w.old) }
{
    let x = diagrams::node(w, v, 0, 1)?;
    conjunction::both(w, e, diagrams::flip(x, 1))
}

// The value of a free latch: false where that leaves a state of e, else true. The edge is that of the states that are left.
fn pick(w: &mut [u32], e: u32, v: u32, bits: &mut [u32]) -> Result<u32, Full>
    ensures { S.leaves w.new result bits.new ≡ S.pick_one e v bits.old (D.state_of w.old) }
{
    let at = v as usize;
    if bits.len() <= at {
        return Ok(e);
    }
    let d = without(w, e, v)?;
    if d == 0 {
        bits[at] = 1;
        return Ok(e);
    }
    Ok(d)
}

// The values of the free latches, in their order.
fn pick_all(w: &mut [u32], e: u32, frees: &[u32], bits: &mut [u32]) -> Result<u32, Full>
    ensures { S.leaves w.new result bits.new ≡ S.pick_all frees.now (D.state_of w.old) e bits.old }
{
    let mut from = e;
    for v in frees {
        from = pick(w, from, *v, bits)?;
    }
    Ok(from)
}

// The least start state of set t. The words have the start values of the latches that are not free, and 0 for those that are; the free ones
// are given by their variables in their order.
pub fn least_start(
    w: &mut [u32],
    table: &[u32],
    s: Shape,
    t: usize,
    frees: &[u32],
    bits: &mut [u32],
) -> Start
    requires good { (terms : M.Terms) × M.Good terms (D.state_of w.old) }
    requires by_index { (i : ℕ) → M.In (D.state_of w.old).nodes (get_or table.now i 0) }
    requires fits { Fits s (length table.now) }
    requires t_bound { t < 256 }
    ensures { S.sought (D.state_of w.new) result bits.new
        ≡ S.seek s.vars s.rows t frees.now table.now bits.old (D.state_of w.old) }
{
    let Ok(e) = state_sets::starts_in(w, table, s, t) else {
        return Start::Full;
    };
    if e == 0 {
        return Start::Nowhere;
    }
    let Ok(_) = pick_all(w, e, frees, bits) else {
        return Start::Full;
    };
    if value_of(w, table[t], bits) {
        return Start::Least;
    }
    Start::Full
}
