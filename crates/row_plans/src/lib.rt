// Plans of the rows of a decision diagram: the inputs and gates in the cone of influence of a bad line, and orders of the latches as
// variables. A plan is right whatever it holds; what it holds decides how large the diagrams are.
#![tactic(auto)]

ghost use Rattle.std.specs.Prelude.{◌≡◌, Bool, cond, List, [], ◌∷◌, ℕ, ◌+◌, ◌-◌, ◌*◌, ◌≤◌, ◌<◌, leb, ltb, length, get_or, set, replicate};
ghost use Rattle.std.proofs.lemmas.List.Edits.{sets};
ghost use Rattle.aiger.specs.Bits.{nonzero, odd};
ghost use Rattle.layout.specs.Words.{word, circuit_in};
ghost use Rattle.layout.specs.Order.{depth_first};
ghost use Rattle.meaning.specs.Frame.{gate_at};
ghost use Rattle.frames.specs.Lanes.{Ready};
ghost use Rattle.influence.specs.Cone.{marks};
ghost use Rattle.diagram_rows.specs.Words.{Prepared};
ghost use Rattle.row_plans.specs.Plans as P;

use layout::Layout;
use literals::{Lit, Var};

// The mark of a literal's variable.
fn mark_of(marks: &[u32], l: Lit) -> u32
    ensures { result ≡ get_or marks.now l.0.0 0 }
{
    let v = l.var();
    memory::get(marks, v.0 as usize)
}

// Whether the variable of a literal is marked.
fn is_marked(marks: &[u32], l: Lit) -> bool
    ensures { result ≡ nonzero (get_or marks.now l.0.0 0) }
{
    mark_of(marks, l) != 0
}

// ---- inputs and gates

// Writes x at n where a test passes, and answers where the next one goes.
fn list_if(plan: &mut [u32], n: usize, x: u32, passes: bool) -> usize
    requires { n < 4294967296 }
    ensures { P.Listed (cond passes (x ∷ []) []) n plan.old plan.new result }
{
    if passes {
        memory::put(plan, n, x);
        return n + 1;
    }
    n
}

// Writes the inputs that are marked from `at` on, and answers where they end.
fn list_inputs(m: &[u32], layout: Layout, marks: &[u32], plan: &mut [u32], at: usize) -> usize
    requires prepared { Prepared m.now layout }
    requires at_bound { at ≤ 65536 }
    ensures { P.Listed (P.inputs_of (circuit_in m.now) marks.now) at plan.old plan.new result }
{
    let count = layout.i;
    let mut n = at;
    for i in 0..count {
        let l = diagram_rows::single_at(m, 7, count, i);
        n = list_if(plan, n, i as u32, is_marked(marks, l));
    }
    n
}

// Writes the gates that are marked from `at` on, in the order that is given, and answers where they end.
fn list_gates(
    m: &[u32],
    layout: Layout,
    order: &[u32],
    marks: &[u32],
    plan: &mut [u32],
    at: usize,
) -> usize
    requires prepared { Prepared m.now layout }
    requires at_bound { at ≤ 131072 }
    ensures { P.Listed (P.gates_of (circuit_in m.now) marks.now order.now) at plan.old
        plan.new result }
{
    let count = layout.a;
    let gates = layout.gates;
    let mut n = at;
    for k in 0..count {
        let g = memory::get(order, k);
        let l = diagram_rows::triple_at(m, gates, count, g as usize, 0);
        n = list_if(plan, n, g, is_marked(marks, l));
    }
    n
}

// ---- latches

// Gives each latch its place in the file and 2 as its mark.
fn number_latches(m: &[u32], layout: Layout, latches: &[u32], marks: &mut [u32])
    requires { Prepared m.now layout }
    ensures { marks.new ≡ P.numbered (circuit_in m.now) latches.now marks.old }
{
    for j in latches {
        let l = diagram_rows::triple_at(m, layout.latches, layout.l, *j as usize, 0);
        let v = l.var();
        memory::put(marks, v.0 as usize, ((*j as u64 + 2) % 4294967296) as u32);
    }
}

// Meets the variable of a literal: a latch that was not met before is the next of the list, of which n are there. Answers how many then
// are.
fn meet(marks: &mut [u32], list: &mut [u32], n: usize, l: Lit) -> usize
    ensures { P.meeting_of marks.new list.new result
        ≡ P.met l.0.0 (P.meeting_of marks.old list.old n) }
{
    let x = mark_of(marks, l);
    if n < list.len() {
        if 1 < x {
            let v = l.var();
            memory::put(marks, v.0 as usize, 1);
            memory::put(list, n, x - 2);
            return n + 1;
        }
    }
    n
}

// Meets the operands of a gate, if it is marked.
fn meet_gate(
    m: &[u32],
    layout: Layout,
    g: usize,
    marks: &mut [u32],
    list: &mut [u32],
    n: usize,
) -> usize
    requires { Prepared m.now layout }
    ensures { P.meeting_of marks.new list.new result
        ≡ P.met_gate (gate_at (circuit_in m.now) g) (P.meeting_of marks.old list.old n) }
{
    let l = diagram_rows::triple_at(m, layout.gates, layout.a, g, 0);
    let x = diagram_rows::triple_at(m, layout.gates, layout.a, g, 1);
    let y = diagram_rows::triple_at(m, layout.gates, layout.a, g, 2);
    if !is_marked(marks, l) {
        return n;
    }
    let some = meet(marks, list, n, x);
    meet(marks, list, some, y)
}

// Meets the operands of the gates that are marked, from the last one down.
fn meet_gates(
    m: &[u32],
    layout: Layout,
    order: &[u32],
    marks: &mut [u32],
    list: &mut [u32],
) -> usize
    requires { Prepared m.now layout }
    ensures { P.meeting_of marks.new list.new result
        ≡ P.met_all (circuit_in m.now) order.now
        (P.meeting_of marks.old list.old 0) }
{
    let mut n = 0;
    let mut k = layout.a;
    while 0 < k {
        k -= 1;
        let g = memory::get(order, k);
        n = meet_gate(m, layout, g as usize, marks, list, n);
    }
    n
}

// Meets the latches that are left, in the order of the file.
fn meet_latches(
    m: &[u32],
    layout: Layout,
    latches: &[u32],
    marks: &mut [u32],
    list: &mut [u32],
    from: usize,
) -> usize
    requires { Prepared m.now layout }
    ensures { P.meeting_of marks.new list.new result
        ≡ P.met_latches (circuit_in m.now) latches.now
        (P.meeting_of marks.old list.old from) }
{
    let mut n = from;
    for j in latches {
        let l = diagram_rows::triple_at(m, layout.latches, layout.l, *j as usize, 0);
        n = meet(marks, list, n, l);
    }
    n
}

// Meets the operands of the gates, from order 2 on.
fn meet_first(
    m: &[u32],
    layout: Layout,
    order: &[u32],
    which: u32,
    marks: &mut [u32],
    list: &mut [u32],
) -> usize
    requires { Prepared m.now layout }
    ensures { P.meeting_of marks.new list.new result
        ≡ P.met_first (circuit_in m.now) order.now which (P.meeting_of marks.old list.old 0) }
{
    if 1 < which {
        return meet_gates(m, layout, order, marks, list);
    }
    0
}

// The latches in the order `which`, before it is turned round.
fn arrange(
    m: &[u32],
    layout: Layout,
    order: &[u32],
    which: u32,
    latches: &[u32],
    marks: &mut [u32],
    list: &mut [u32],
)
    requires prepared { Prepared m.now layout }
    requires list_value { list.old ≡ P.copied latches.now }
    ensures { list.new
        ≡ (P.meeting (circuit_in m.now) marks.old order.now which latches.now).list }
{
    number_latches(m, layout, latches, marks);
    let n = meet_first(m, layout, order, which, marks, list);
    meet_latches(m, layout, latches, marks, list, n);
}

// Word k of the first n words of a list, counted from the last one where `which` is odd.
fn turned_at(list: &[u32], n: usize, which: u32, k: usize) -> u32
    requires { k < n }
    ensures { result ≡ get_or list.now (cond (odd which) (n - (k + 1)) k) 0 }
{
    if which % 2 == 0 {
        return memory::get(list, k);
    }
    memory::get(list, n - (k + 1))
}

// Writes n words of the list from place `at` on, from the n-th on backward where `which` is odd.
fn put_list(list: &[u32], n: usize, which: u32, plan: &mut [u32], at: usize)
    requires { (n ≤ 65536) × (at ≤ 65536) }
    ensures { plan.new ≡ sets plan.old at (P.turned (odd which) n list.now) }
{
    for k in 0..n {
        let x = turned_at(list, n, which, k);
        memory::put(plan, at + k, x);
    }
}

// ---- plans

// Writes the plan of bad line b with the latches in the order `which`. Answers whether at most four inputs matter. The words after the
// plan stay; a plan that does not fit is cut off.
pub fn make_plan(
    m: &[u32],
    layout: Layout,
    order: &[u32],
    b: usize,
    latches: &[u32],
    which: u32,
    plan: &mut [u32],
) -> bool
    requires ready { Ready m.now layout order.now 4097 }
    requires b_bound { (b < word m.now 5) × (length latches.now ≤ 1024) }
    ensures { P.Planned (P.planned (circuit_in m.now) (marks (circuit_in m.now) b)
        (depth_first (circuit_in m.now)) which latches.now) plan.old plan.new result }
{
    let mut marks = [0u32; 4097];
    let mut list = [0u32; 1024];
    let count = latches.len();
    influence::mark_cone(m, layout, order, b, &mut marks);
    let inputs = 3 + count;
    let gates = list_inputs(m, layout, &marks, plan, inputs);
    let end = list_gates(m, layout, order, &marks, plan, gates);
    put_list(latches, count, 0, &mut list, 0);
    arrange(m, layout, order, which, latches, &mut marks, &mut list);
    put_list(&list, count, which, plan, 3);
    memory::put(plan, 0, count as u32);
    memory::put(plan, 1, (gates - inputs) as u32);
    memory::put(plan, 2, (end - gates) as u32);
    gates - inputs <= 4
}
