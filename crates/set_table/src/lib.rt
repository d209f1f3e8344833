// What an attempt at the frames by sets of states begins with: the free latches by their variables, the start values of the variables, and
// the table of a plan with the edges of its rows and of the start states. A latch past the last one of the file is read as one of zeros.
#![tactic(auto)]

ghost use Rattle.std.specs.Prelude.{◌≡◌, ◌+◌, ◌*◌, ◌^◌, ◌≤◌, ◌<◌, length, take};
ghost use Rattle.aiger.specs.Frames.{is_free};
ghost use Rattle.layout.specs.Words.{word, circuit_in};
ghost use Rattle.meaning.specs.Frame.{latch_at};
ghost use Rattle.diagrams.specs.Words as W;
ghost use Rattle.diagrams.specs.States as D;
ghost use Rattle.conjunction.specs.Conjunction as C;
ghost use Rattle.diagram_rows.specs.Words.{Prepared};
ghost use Rattle.state_sets.specs.Shape.{row_at};
ghost use Rattle.state_sets.specs.Sets as S;
ghost use Rattle.set_stage.specs.Plans.{reset_word, frees_of, base_of};
ghost use Rattle.set_stage.specs.Table.{with_reset, with_resets};
ghost use Rattle.set_attempt.specs.Attempt as T;
ghost use Rattle.set_table.specs.Room.{TableRoom};

use diagrams::Full;
use layout::Layout;
use state_sets::Shape;

// ---- start values

// Whether latch j of the file starts free.
fn is_free(m: &[u32], layout: Layout, j: usize) -> bool
    requires { Prepared m.now layout }
    ensures { result ≡ is_free (latch_at (circuit_in m.now) j) }
{
    let lit = diagram_rows::triple_at(m, layout.latches, layout.l, j, 0);
    let reset = diagram_rows::triple_at(m, layout.latches, layout.l, j, 2);
    reset.equals(lit)
}

// The start value of latch j of the file, 0 where it is free.
fn reset_word(m: &[u32], layout: Layout, j: usize) -> u32
    requires { Prepared m.now layout }
    ensures { (result ≡ reset_word (circuit_in m.now) j) × (result ≤ 1) }
{
    if is_free(m, layout, j) {
        return 0;
    }
    let reset = diagram_rows::triple_at(m, layout.latches, layout.l, j, 2);
    if reset.is_true() { 1 } else { 0 }
}

// Lists the variables of the free latches, in the order of the file, and the number of variables for a latch that has none. Answers how
// many there are.
pub fn list_frees(m: &[u32], layout: Layout, latches: &[u32], frees: &mut [u32]) -> usize
    requires prepared { Prepared m.now layout }
    requires in_bounds { (1024 ≤ length frees.old) × (length latches.now < 4294967296) }
    ensures { (take result frees.new ≡ frees_of (circuit_in m.now) latches.now)
        × (result ≡ length (frees_of (circuit_in m.now) latches.now)) × (result ≤ 1024) }
{
    let mut n = 0;
    for j in 0..layout.l {
        if is_free(m, layout, j) {
            frees[n] = trace_bits::rank_of(latches, j as u32) as u32;
            n += 1;
        }
    }
    n
}

// Writes the start values of the variables.
pub fn put_base(m: &[u32], layout: Layout, latches: &[u32], base: &mut [u32])
    requires prepared { Prepared m.now layout }
    requires base_len { length base.old ≡ length latches.now }
    ensures { base.new ≡ base_of (circuit_in m.now) latches.now }
{
    for v in 0..latches.len() {
        base[v] = reset_word(m, layout, latches[v] as usize);
    }
}

// Whether no word is there twice: each is where it is found first.
pub fn are_distinct(xs: &[u32]) -> bool
    ensures { result ≡ T.is_distinct xs.now }
{
    for v in 0..xs.len() {
        if trace_bits::rank_of(xs, xs[v]) < v {
            return false;
        }
    }
    true
}

// ---- the edge of the start states

// The states of e in which variable v is true, or false where c is odd.
fn with_value(w: &mut [u32], e: u32, v: u32, c: u32) -> Result<u32, Full>
    ensures { D.left w.new result ≡ D.and_then (D.made (D.state_of w.old) v 0 1) (λ t x. C.both t e (W.flip x c)) }
{
    let x = diagrams::node(w, v, 0, 1)?;
    conjunction::both(w, e, diagrams::flip(x, c))
}

// The states of e in which variable v, which is latch j of the file, has its start value.
fn with_reset(
    w: &mut [u32],
    m: &[u32],
    layout: Layout,
    v: u32,
    j: usize,
    e: u32,
) -> Result<u32, Full>
    requires { Prepared m.now layout }
    ensures { D.left w.new result ≡ with_reset (circuit_in m.now) v j (D.state_of w.old) e }
{
    if is_free(m, layout, j) {
        return Ok(e);
    }
    let value = reset_word(m, layout, j);
    with_value(w, e, v, 1 - value)
}

// The states in which every variable has its start value.
fn with_resets(w: &mut [u32], m: &[u32], layout: Layout, latches: &[u32]) -> Result<u32, Full>
    requires prepared { Prepared m.now layout }
    requires latches_len_bound { length latches.now ≤ 256 }
    ensures { D.left w.new result ≡ with_resets (circuit_in m.now) 0 latches.now (D.state_of w.old) 1 }
{
    let mut e = 1;
    for v in 0..latches.len() {
        e = with_reset(w, m, layout, v as u32, latches[v] as usize, e)?;
    }
    Ok(e)
}

// ---- the table

// Puts the edge of the start states after the rows; false where the diagram is full.
fn put_start(
    w: &mut [u32],
    m: &[u32],
    layout: Layout,
    latches: &[u32],
    rows: usize,
    table: &mut [u32],
) -> bool
    requires prepared { Prepared m.now layout }
    requires latches_len_bound { (length latches.now ≤ 256) × (rows ≤ 16) × (row_at (length latches.now) rows < length table.old) }
    ensures { S.left w.new table.new result
        ≡ T.start_put (circuit_in m.now) latches.now rows (S.sets_of w.old table.old) }
{
    let s = Shape {
        vars: latches.len(),
        rows: rows,
    };
    let at = state_sets::row_at(s, rows);
    match with_resets(w, m, layout, latches) {
        Err(_) => false,
        Ok(e) => {
            table[at] = e;
            true
        }
    }
}

// The same, and once more after a collection where the diagram is full.
fn put_start_again(
    w: &mut [u32],
    m: &[u32],
    layout: Layout,
    latches: &[u32],
    rows: usize,
    table: &mut [u32],
) -> bool
    requires prepared { Prepared m.now layout }
    requires latches_len_bound { (length latches.now ≤ 256) × (rows ≤ 16) × (row_at (length latches.now) rows < length table.old) }
    ensures { S.left w.new table.new result
        ≡ S.again (T.start_put (circuit_in m.now) latches.now rows) (S.sets_of w.old table.old) }
{
    if put_start(w, m, layout, latches, rows, table) {
        return true;
    }
    match collection::collect(w, table) {
        Err(_) => false,
        Ok(_) => put_start(w, m, layout, latches, rows, table),
    }
}

// How many rows a plan has.
fn rows_of(plan: &[u32]) -> usize
    requires { (1 < length plan.now) × (word plan.now 1 ≤ 4) }
    ensures { (result ≡ 2 ^ word plan.now 1) × (result ≤ 16) }
{
    let inputs = plan[1] as usize;
    1usize << inputs
}

// Makes the table of a plan: the edge of the start states and the edges of the rows. False where the diagram is full or an edge is absent.
pub fn make_table(
    w: &mut [u32],
    m: &[u32],
    layout: Layout,
    b: usize,
    plan: &[u32],
    table: &mut [u32],
) -> bool
    requires prepared { Prepared m.now layout }
    requires table_room { TableRoom plan.now (length table.old) }
    ensures { S.left w.new table.new result
        ≡ T.table_made (circuit_in m.now) b plan.now (S.sets_of w.old table.old) }
{
    let rows = rows_of(plan);
    let end = 3 + plan[0] as usize;
    if !put_start_again(w, m, layout, &plan[3..end], rows, table) {
        return false;
    }
    set_stage::put_rows(w, m, layout, b, plan, rows, table)
}
