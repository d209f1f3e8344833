// The latches in the cone of influence of a bad line: marks spread from the bad line and the constraints through gates and latches.
#![tactic(auto)]

ghost use Rattle.std.specs.Prelude.{◌≡◌, ◌||◌, ℕ, ◌+◌, ◌*◌, ◌≤◌, ◌<◌, length, get_or, set, take, drop};
ghost use Rattle.aiger.specs.Lists.{every_below};
ghost use Rattle.aiger.specs.Bits.{nonzero};
ghost use Rattle.literals.specs.Literal.{literal};
ghost use Rattle.layout.specs.Words.{word, circuit_in};
ghost use Rattle.meaning.specs.Frame.{latch_at};
ghost use Rattle.frames.specs.Lanes.{Ready};
ghost use Rattle.influence.specs.Cone.{
  marked,
  mark_below,
  reach,
  reach_down,
  spread,
  closed_at,
  closed,
  settle,
  cone_from,
  kept_below,
  kept_latches,
  gate_by,
  Room,
  Rooms,
  Literals,
};

use layout::Layout;
use literals::{Lit, Var};

// The variable of the literal at a position.
fn var_at(m: &[u32], at: usize) -> Var
    requires { at < length m.now }
    ensures { result ≡ (literal (word m.now at)).0 }
{
    Lit::from_word(m[at]).var()
}

// Marks a variable.
fn mark(marks: &mut [u32], v: Var)
    requires { v.0 < length marks.old }
    ensures { marks.new ≡ set marks.old v.0 1 }
{
    let at = v.0 as usize;
    marks[at] = 1;
}

// Whether a variable is marked.
fn is_marked(marks: &[u32], v: Var) -> bool
    requires { v.0 < length marks.now }
    ensures { result ≡ nonzero (get_or marks.now v.0 0) }
{
    let at = v.0 as usize;
    marks[at] != 0
}

// Marks the variables of n literals from `at` on.
fn mark_words(m: &[u32], at: usize, n: usize, marks: &mut [u32])
    requires { Literals m.now at n (length marks.old) }
    ensures { marks.new ≡ mark_below (λ i. word m.now (at + i)) n marks.old }
{
    for i in 0..n {
        mark(marks, var_at(m, at + i));
    }
}

// Marks the operands of the gate at `at`, if it is marked.
fn reach(m: &[u32], at: usize, last: usize, marks: &mut [u32])
    requires { Room m.now at last (length marks.old) }
    ensures { marks.new ≡ reach (gate_by m.now at last) marks.old }
{
    let v = var_at(m, at);
    let x = var_at(m, at + 1);
    let y = var_at(m, at + last);
    if !is_marked(marks, v) {
        return;
    }
    mark(marks, x);
    mark(marks, y);
}

// The same of n gates from `at` on, the last one first.
fn reach_down(m: &[u32], at: usize, n: usize, last: usize, marks: &mut [u32])
    requires { Rooms m.now at n last (length marks.old) }
    ensures { marks.new ≡ reach_down (λ i. gate_by m.now (at + 3 * i) last) n marks.old }
{
    for k in (0..n).rev() {
        reach(m, at + 3 * k, last, marks);
    }
}

// One round: all gates, and then all latches.
fn spread(m: &[u32], layout: Layout, order: &[u32], marks: &mut [u32])
    requires { Ready m.now layout order.now (length marks.old) }
    ensures { marks.new ≡ spread (circuit_in m.now) marks.old }
{
    reach_down(m, layout.gates, layout.a, 2, marks);
    reach_down(m, layout.latches, layout.l, 1, marks);
}

// Whether the operands of the gate at `at` are marked, if it is.
fn is_closed(m: &[u32], at: usize, last: usize, marks: &[u32]) -> bool
    requires { Room m.now at last (length marks.now) }
    ensures { result ≡ closed_at marks.now (gate_by m.now at last) }
{
    let v = var_at(m, at);
    let x = var_at(m, at + 1);
    let y = var_at(m, at + last);
    if !is_marked(marks, v) {
        return true;
    }
    if !is_marked(marks, x) {
        return false;
    }
    is_marked(marks, y)
}

// The same of n gates from `at` on.
fn are_closed(m: &[u32], at: usize, n: usize, last: usize, marks: &[u32]) -> bool
    requires { Rooms m.now at n last (length marks.now) }
    ensures { result ≡ every_below n (λ i. closed_at marks.now (gate_by m.now (at + 3 * i) last)) }
{
    for i in 0..n {
        if !is_closed(m, at + 3 * i, last, marks) {
            return false;
        }
    }
    true
}

// Whether the variables of n literals from `at` on are marked.
fn are_marked(m: &[u32], at: usize, n: usize, marks: &[u32]) -> bool
    requires { Literals m.now at n (length marks.now) }
    ensures { result ≡ every_below n (λ i. marked marks.now (word m.now (at + i))) }
{
    for i in 0..n {
        if !is_marked(marks, var_at(m, at + i)) {
            return false;
        }
    }
    true
}

// Whether the marks are closed.
fn is_settled(m: &[u32], layout: Layout, order: &[u32], b: usize, marks: &[u32]) -> bool
    requires ready { Ready m.now layout order.now (length marks.now) }
    requires b_bound { b < word m.now 5 }
    ensures { result ≡ closed (circuit_in m.now) b marks.now }
{
    let gates = are_closed(m, layout.gates, layout.a, 2, marks);
    let latches = are_closed(m, layout.latches, layout.l, 1, marks);
    let bad = are_marked(m, layout.bads + b, 1, marks);
    let constraints = are_marked(m, layout.constraints, layout.c, marks);
    gates & (latches & (bad & constraints))
}

// Rounds until the marks are closed, 129 at most.
fn settle(m: &[u32], layout: Layout, order: &[u32], b: usize, marks: &mut [u32])
    requires ready { Ready m.now layout order.now (length marks.old) }
    requires b_bound { b < word m.now 5 }
    ensures { marks.new ≡ settle 129 (circuit_in m.now) b marks.old }
{
    // A while: it counts the rounds that are left, which is its measure.
    let mut left: usize = 129;
    while 0 < left {
        if is_settled(m, layout, order, b, marks) {
            return;
        }
        spread(m, layout, order, marks);
        left -= 1;
    }
}

// Lists the latches that are marked, or all of them; the words after them stay.
fn keep(
    m: &[u32],
    layout: Layout,
    order: &[u32],
    all: bool,
    marks: &[u32],
    kept: &mut [u32],
) -> usize
    requires ready { Ready m.now layout order.now (length marks.now) }
    requires in_bounds { 1024 ≤ length kept.old }
    ensures { (result ≤ layout.l) × (take result kept.new ≡ kept_below (λ j. all
        || marked marks.now (latch_at (circuit_in m.now) j).lit) layout.l)
        × (drop result kept.new ≡ drop result kept.old) }
{
    let latches = layout.latches;
    let mut n = 0;
    for j in 0..layout.l {
        let marked = is_marked(marks, var_at(m, latches + 3 * j));
        if all | marked {
            kept[n] = j as u32;
            n += 1;
        }
    }
    n
}

// Marks the cone of influence of bad line b, where nothing is marked before.
pub fn mark_cone(m: &[u32], layout: Layout, order: &[u32], b: usize, marks: &mut [u32])
    requires ready { Ready m.now layout order.now (length marks.old) }
    requires b_bound { b < word m.now 5 }
    ensures { marks.new ≡ cone_from (circuit_in m.now) b marks.old }
{
    mark_words(m, layout.bads + b, 1, marks);
    mark_words(m, layout.constraints, layout.c, marks);
    settle(m, layout, order, b, marks);
}

// Lists the latches in the cone of influence of bad line b, or all latches where the marks do not settle, by their places in the file;
// answers how many there are. The words after them stay.
pub fn kept_latches(m: &[u32], layout: Layout, order: &[u32], b: usize, kept: &mut [u32]) -> usize
    requires ready { Ready m.now layout order.now 4097 }
    requires b_bound { (b < word m.now 5) × (1024 ≤ length kept.old) }
    ensures { (result ≤ layout.l) × (take result kept.new ≡ kept_latches (circuit_in m.now) b)
        × (drop result kept.new ≡ drop result kept.old) }
{
    let mut marks = [0u32; 4097];
    mark_cone(m, layout, order, b, &mut marks);
    let whole = !is_settled(m, layout, order, b, &marks);
    keep(m, layout, order, whole, &marks, kept)
}
