// Cause 8: the gates in an order with operands before users, or a cycle. A depth-first search with its stack in memory.
// With m gates, pos has for each gate 0 before the search meets it; then m + 1 plus its place on the stack; then 1 plus its place in the
// order.
#![tactic(auto)]

ghost use Rattle.std.specs.Prelude.{◌≡◌, ℕ, ◌+◌, ◌<◌, ◌≤◌, T, length, get_or, set, drop};
ghost use Rattle.std.proofs.Math.Option.{Option};
ghost use Rattle.aiger.specs.Circuit.{literals_right};
ghost use Rattle.layout.specs.Words.{circuit_in};
ghost use Rattle.layout.specs.Layout.{Counted};
ghost use Rattle.columns.specs.Columns.{total};
ghost use Rattle.variables.specs.Table.{Entered};
ghost use Rattle.toposort.specs.Gates.{Answered};
ghost use Rattle.toposort.specs.DepthFirst.{Linked, Looked, OperandOf, Operands, Next, Search, Stepped, Continues};
ghost use Rattle.toposort.specs.DepthFirst.{Arranged, Tested, Sorted};

use literals::{Lit, Var};

// A gate that is not met; one on the stack; or one in the order, or none.
#[derive(Clone, Copy)]
enum Visit {
    Fresh(usize),
    Open,
    Done,
}

// A gate went on the stack; the one on top went to the order; or the stack has a cycle.
#[derive(Clone, Copy)]
enum Step {
    Deeper,
    Placed,
    Cycle,
}

// The gates of a circuit: how many definitions come before the first, and how many gates there are.
#[derive(Clone, Copy)]
struct Gates {
    base: usize,
    m: usize,
}

// How many gates are on the stack, and how many in the order.
#[derive(Clone, Copy)]
struct Progress {
    sp: usize,
    done: usize,
}

// How far the search is with the gate that defines variable v.
fn look(table: &[u32], pos: &[u32], base: usize, m: usize, v: Var) -> Visit
    requires v_in_bounds { v.0 < length table.now }
    requires m_in_bounds { m ≤ length pos.now }
    requires by_index { (u : ℕ) → get_or table.now u 0 ≤ base + m }
    ensures { Looked base m table.now pos.now v.0 result }
{
    let at = v.0 as usize;
    let a = table[at] as usize;
    if a <= base {
        return Visit::Done;
    }
    let h = a - base - 1;
    let p = pos[h] as usize;
    if p == 0 {
        return Visit::Fresh(h);
    }
    if p > m {
        return Visit::Open;
    }
    Visit::Done
}

// An operand of gate g that is not in the order yet.
fn operand(lits: &[u32], table: &[u32], pos: &[u32], base: usize, m: usize, g: usize) -> Visit
    requires linked { Linked lits.now base m table.now }
    requires m_in_bounds { m ≤ length pos.now }
    requires g_lt_m { g < m }
    ensures { OperandOf lits.now m pos.now g result × ((left right : ℕ → Option ℕ)
        → Operands lits.now base m table.now left right → Next m pos.now (left g) (right g) result) }
{
    let left = Lit::from_word(lits[3 * g + 1]).var();
    let right = Lit::from_word(lits[3 * g + 2]).var();
    match look(table, pos, base, m, left) {
        Visit::Fresh(h) => Visit::Fresh(h),
        Visit::Open => Visit::Open,
        Visit::Done => look(table, pos, base, m, right),
    }
}

// Puts gate h on the stack.
fn push(pos: &mut [u32], stack: &mut [u32], m: usize, sp: usize, h: usize)
    requires { (m ≤ 4096) × (h < m) × (sp < m) × (m ≤ length pos.old) × (m ≤ length stack.old) }
    ensures { (pos.new ≡ set pos.old h (m + 1 + sp)) × (stack.new ≡ set stack.old sp h) }
{
    stack[sp] = h as u32;
    pos[h] = (m + 1 + sp) as u32;
}

// Puts gate g at the end of the order.
fn place(pos: &mut [u32], order: &mut [u32], m: usize, done: usize, g: usize)
    requires { (m ≤ 4096) × (g < m) × (done < m) × (m ≤ length pos.old) × (m ≤ length order.old) }
    ensures { (pos.new ≡ set pos.old g (done + 1)) × (order.new ≡ set order.old done g) }
{
    order[done] = g as u32;
    pos[g] = (done + 1) as u32;
}

// One step from the gate on top of the stack: an operand goes on the stack, or the gate to the order.
fn advance(
    lits: &[u32],
    table: &[u32],
    gates: Gates,
    pos: &mut [u32],
    order: &mut [u32],
    stack: &mut [u32],
    at: Progress,
) -> Step
    requires linked { Linked lits.now gates.base gates.m table.now }
    requires search { Search lits.now gates.m pos.old order.old stack.old at.sp at.done }
    requires sp_nonzero { 0 < at.sp }
    ensures { Stepped lits.now gates.m pos.old pos.new order.new stack.new at.sp
        at.done result
        × ((left right : ℕ → Option ℕ)
        → Operands lits.now gates.base gates.m table.now left right
        → Continues left right gates.m order.old stack.old order.new stack.new at.sp
        at.done result)
        × (drop gates.m order.new ≡ drop gates.m order.old) }
{
    let base = gates.base;
    let m = gates.m;
    let sp = at.sp;
    let done = at.done;
    let g = stack[sp - 1] as usize;
    match operand(lits, table, pos, base, m, g) {
        Visit::Fresh(h) => {
            push(pos, stack, m, sp, h);
            Step::Deeper
        }
        Visit::Open => Step::Cycle,
        Visit::Done => {
            place(pos, order, m, done, g);
            Step::Placed
        }
    }
}

// A depth-first search from each gate in turn. False where it meets a cycle.
fn sort(
    lits: &[u32],
    table: &[u32],
    base: usize,
    m: usize,
    pos: &mut [u32],
    order: &mut [u32],
    stack: &mut [u32],
) -> bool
    requires linked { Linked lits.now base m table.now }
    requires m_in_bounds { (m ≤ length pos.old) × (m ≤ length order.old) × (m ≤ length stack.old) }
    requires by_index { (g : ℕ) → g < m → get_or pos.old g 0 ≡ 0 }
    ensures { Answered lits.now m pos.new order.new result
        × Arranged lits.now base m table.now order.new result
        × (drop m order.new ≡ drop m order.old) }
{
    let mut s = 0;
    let mut sp = 0;
    let mut done = 0;
    while s < m {
        if 0 < sp {
            match advance(
                lits,
                table,
                Gates { base, m },
                pos,
                order,
                stack,
                Progress { sp, done },
            ) {
                Step::Deeper => sp += 1,
                Step::Placed => {
                    sp -= 1;
                    done += 1;
                }
                Step::Cycle => return false,
            }
        } else if pos[s] == 0 {
            push(pos, stack, m, sp, s);
            sp += 1;
        } else {
            s += 1;
        }
    }
    true
}

// Whether there is no cause 8. order then has an order of evaluation; the words after it are as they were.
fn test_order(w: &[u32], table: &[u32], order: &mut [u32]) -> bool
    requires counted { Counted w.now }
    requires t { T (literals_right (circuit_in w.now)) }
    requires entered { Entered w.now (total w.now) table.now }
    requires in_bounds { 3072 ≤ length order.old }
    ensures { Tested (circuit_in w.now) order.old order.new result }
{
    let p = layout::layout_of(w);
    let at = p.gates;
    let mut pos = [0u32; 3072];
    let mut stack = [0u32; 3072];
    sort(&w[at..], table, p.i + p.l, p.a, &mut pos, order, &mut stack)
}

// Cause 8: true where there is none. order then has an order of evaluation, and the words after it are as they were; else order is all 0.
pub fn ordered(w: &[u32], table: &[u32], order: &mut [u32]) -> bool
    requires counted { Counted w.now }
    requires t { T (literals_right (circuit_in w.now)) }
    requires entered { Entered w.now (total w.now) table.now }
    requires in_bounds { 3072 ≤ length order.old }
    ensures { Sorted (circuit_in w.now) order.old order.new result }
{
    if test_order(w, table, order) {
        return true;
    }
    variables::clear(order);
    false
}
