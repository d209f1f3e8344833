// The gates of a circuit under a row of inputs as edges of a decision diagram over its latches. A map has for each variable of the
// circuit its edge, or a number that is no edge. Places past the end of a map and of a table are read as absent or 0, and nothing is
// stored there.
#![tactic(auto)]

ghost use Rattle.std.specs.Prelude.{◌≡◌, Bool, false, cond, ◌∷◌, [], ◌++◌, map, ℕ, ◌+◌, ◌*◌, ◌≤◌, ◌<◌, ltb, length, get_or, set, take, drop};
ghost use Rattle.aiger.specs.Lists.{every};
ghost use Rattle.literals.specs.Literal.{literal};
ghost use Rattle.layout.specs.Words.{word, circuit_in};
ghost use Rattle.meaning.specs.Frame.{input_at, latch_at, gate_at};
ghost use Rattle.diagrams.specs.States.{state_of, left, edge_of};
ghost use Rattle.diagrams.specs.States as S;
ghost use Rattle.diagram_rows.specs.Rows as R;
ghost use Rattle.diagram_rows.specs.Words.{Prepared, triple_word, single_word};

use diagrams::Full;
use layout::Layout;
use literals::{Lit, Var};

// ---- maps

// The word of a variable.
fn entry(edges: &[u32], v: Var) -> u32
    ensures { result ≡ get_or edges.now v.0 R.absent }
{
    let at = v.0 as usize;
    if at < edges.len() {
        edges[at]
    } else {
        4294967295
    }
}

// Whether the variable of a literal has an edge.
fn is_present(edges: &[u32], l: Lit) -> bool
    ensures { result ≡ R.is_present edges.now l }
{
    entry(edges, l.var()) != 4294967295
}

// The edge of a literal whose variable has one.
fn edge_of(edges: &[u32], l: Lit) -> u32
    ensures { result ≡ R.edge_in edges.now l }
{
    let e = entry(edges, l.var());
    if l.is_complement() {
        return diagrams::flip(e, 1);
    }
    e
}

// Gives a variable the edge that was made; false where there is none.
fn note(made: Result<u32, Full>, v: Var, edges: &mut [u32]) -> bool
    ensures { R.words_of result edges.new ≡ R.noted (edge_of made) v.0 edges.old }
{
    match made {
        Ok(e) => {
            memory::put(edges, v.0 as usize, e);
            true
        }
        Err(_) => false,
    }
}

// ---- literals of the circuit

// Literal k of row j of `rows` rows of three words from `at` on, literal 0 past the last row.
pub fn triple_at(m: &[u32], at: usize, rows: usize, j: usize, k: usize) -> Lit
    requires { (at + 3 * rows ≤ length m.now) × (k < 3) }
    ensures { result ≡ literal (triple_word m.now at rows j k) }
{
    if j < rows {
        return Lit::from_word(m[at + 3 * j + k]);
    }
    Lit::from_word(0)
}

// Literal j of `rows` literals from `at` on, literal 0 past the last one.
pub fn single_at(m: &[u32], at: usize, rows: usize, j: usize) -> Lit
    requires { at + rows ≤ length m.now }
    ensures { result ≡ literal (single_word m.now at rows j) }
{
    if j < rows {
        return Lit::from_word(m[at + j]);
    }
    Lit::from_word(0)
}

// ---- leaves

// Gives a literal's variable the edge of variable v of the diagram.
fn put_latch(w: &mut [u32], v: u32, l: Lit, edges: &mut [u32]) -> bool
    ensures { R.leaves w.new edges.new result ≡ R.noted_in (S.made (state_of w.old) v 0 1) l.0.0 edges.old }
{
    let e = diagrams::node(w, v, 0, 1);
    note(e, l.var(), edges)
}

// Gives each latch the edge of its variable of the diagram, in the order of `latches`.
fn put_latches(w: &mut [u32], m: &[u32], layout: Layout, latches: &[u32], edges: &mut [u32]) -> bool
    requires prepared { Prepared m.now layout }
    requires latches_len_bound { length latches.now < 4294967296 }
    ensures { R.leaves w.new edges.new result
        ≡ R.latches_put (circuit_in m.now) 0 latches.now (state_of w.old) edges.old }
{
    for v in 0..latches.len() {
        let l = triple_at(m, layout.latches, layout.l, latches[v] as usize, 0);
        if !put_latch(w, v as u32, l, edges) {
            return false;
        }
    }
    true
}

// Gives each input that matters its bit of row r, the last one the least significant bit.
fn put_bits(m: &[u32], layout: Layout, inputs: &[u32], r: u32, edges: &mut [u32])
    requires { Prepared m.now layout }
    ensures { edges.new ≡ R.bits_put (circuit_in m.now) r inputs.now edges.old }
{
    let mut left = r;
    let mut k = inputs.len();
    while 0 < k {
        k -= 1;
        let l = single_at(m, 7, layout.i, inputs[k] as usize);
        let v = l.var();
        memory::put(edges, v.0 as usize, left % 2);
        left = left / 2;
    }
}

// ---- gates

// Gives a variable the edge of the conjunction of two literals.
fn put_gate(w: &mut [u32], v: Var, x: Lit, y: Lit, edges: &mut [u32]) -> bool
    ensures { R.leaves w.new edges.new result ≡ R.gate_put v.0 x y (state_of w.old) edges.old }
{
    if !is_present(edges, x) {
        return false;
    }
    if !is_present(edges, y) {
        return false;
    }
    let e = edge_of(edges, x);
    let f = edge_of(edges, y);
    let made = conjunction::both(w, e, f);
    note(made, v, edges)
}

// The same of gate g of the file.
fn put_gate_at(w: &mut [u32], m: &[u32], layout: Layout, g: usize, edges: &mut [u32]) -> bool
    requires { Prepared m.now layout }
    ensures { R.leaves w.new edges.new result
        ≡ R.gate_put_in (gate_at (circuit_in m.now) g) (state_of w.old) edges.old }
{
    let l = triple_at(m, layout.gates, layout.a, g, 0);
    let x = triple_at(m, layout.gates, layout.a, g, 1);
    let y = triple_at(m, layout.gates, layout.a, g, 2);
    put_gate(w, l.var(), x, y, edges)
}

// The same of gates, one after the other.
fn put_gates(w: &mut [u32], m: &[u32], layout: Layout, gates: &[u32], edges: &mut [u32]) -> bool
    requires { Prepared m.now layout }
    ensures { R.leaves w.new edges.new result
        ≡ R.gates_put (circuit_in m.now) gates.now (state_of w.old) edges.old }
{
    for g in gates {
        if !put_gate_at(w, m, layout, *g as usize, edges) {
            return false;
        }
    }
    true
}

// ---- lines

// The conjunction of an edge and a literal; full where the literal has no edge.
fn with_literal(w: &mut [u32], e: u32, l: Lit, edges: &[u32]) -> Result<u32, Full>
    ensures { left w.new result ≡ R.with_literal edges.now l (state_of w.old) e }
{
    if !is_present(edges, l) {
        return Err(Full);
    }
    let f = edge_of(edges, l);
    conjunction::both(w, e, f)
}

// The conjunction of the constraints.
fn constrain(w: &mut [u32], m: &[u32], layout: Layout, edges: &[u32]) -> Result<u32, Full>
    requires { Prepared m.now layout }
    ensures { left w.new result
        ≡ R.with_literals edges.now (circuit_in m.now).constraints (state_of w.old) 1 }
{
    let constraints = layout.constraints;
    let mut con = 1;
    for k in 0..layout.c {
        con = with_literal(w, con, Lit::from_word(m[constraints + k]), edges)?;
    }
    Ok(con)
}

// Whether every next literal has an edge.
fn are_present(m: &[u32], layout: Layout, latches: &[u32], edges: &[u32]) -> bool
    requires { Prepared m.now layout }
    ensures { result ≡ every (λ j. R.is_present edges.now (R.next_literal (circuit_in m.now) j)) latches.now }
{
    for j in latches {
        let l = triple_at(m, layout.latches, layout.l, *j as usize, 1);
        if !is_present(edges, l) {
            return false;
        }
    }
    true
}

// Writes the edges of the next literals, those of the constraints and of the hit after them.
fn write_row(
    m: &[u32],
    layout: Layout,
    latches: &[u32],
    edges: &[u32],
    con: u32,
    hit: u32,
    row: &mut [u32],
)
    requires prepared { Prepared m.now layout }
    requires row_len { length row.old ≡ length latches.now + 2 }
    ensures { row.new ≡ map (λ j. R.edge_in edges.now (R.next_literal (circuit_in m.now) j)) latches.now
        ++ (con ∷ hit ∷ []) }
{
    let count = latches.len();
    let mut v = 0;
    while v < count {
        let l = triple_at(m, layout.latches, layout.l, latches[v] as usize, 1);
        row[v] = edge_of(edges, l);
        v += 1;
    }
    row[count] = con;
    row[count + 1] = hit;
}

// The next states, the constraints and the hit of a row whose gates have their edges. Where it is not made the words stay.
fn finish_row(
    w: &mut [u32],
    m: &[u32],
    layout: Layout,
    b: usize,
    latches: &[u32],
    edges: &[u32],
    row: &mut [u32],
) -> bool
    requires prepared { Prepared m.now layout }
    requires row_len { length row.old ≡ length latches.now + 2 }
    ensures { R.Written w.new row.old row.new result
        (R.row_end (circuit_in m.now) b latches.now (state_of w.old) edges.now) }
{
    let made = constrain(w, m, layout, edges);
    let Ok(con) = made else {
        return false;
    };
    let bad = single_at(m, layout.bads, layout.b, b);
    let last = with_literal(w, con, bad, edges);
    let Ok(hit) = last else {
        return false;
    };
    if !are_present(m, layout, latches, edges) {
        return false;
    }
    write_row(m, layout, latches, edges, con, hit, row);
    true
}

// A count of a plan.
fn count_at(plan: &[u32], i: usize) -> usize
    ensures { (result ≡ word plan.now i) × (result < 4294967296) }
{
    if i < plan.len() {
        return plan[i] as usize;
    }
    0
}

// Row r of a plan, where there is room for one word for each latch of the plan and two more: the edges of the next states, the
// constraints, and the constraints with bad line b. False where the diagram is full or an edge is absent; the words of the row stay
// then.
pub fn make_row(
    w: &mut [u32],
    m: &[u32],
    layout: Layout,
    b: usize,
    plan: &[u32],
    r: u32,
    row: &mut [u32],
) -> bool
    requires prepared { Prepared m.now layout }
    requires row_len { length row.old ≡ word plan.now 0 + 2 }
    ensures { R.Written w.new row.old row.new result
        (R.row_in (circuit_in m.now) b plan.now r (state_of w.old)) }
{
    let inputs = 3 + count_at(plan, 0);
    let gates = inputs + count_at(plan, 1);
    let end = gates + count_at(plan, 2);
    if plan.len() < end {
        return false;
    }
    let mut edges = [4294967295u32; 4097];
    edges[0] = 0;
    put_bits(m, layout, &plan[inputs..gates], r, &mut edges);
    if !put_latches(w, m, layout, &plan[3..inputs], &mut edges) {
        return false;
    }
    if !put_gates(w, m, layout, &plan[gates..end], &mut edges) {
        return false;
    }
    finish_row(w, m, layout, b, &plan[3..inputs], &edges, row)
}
