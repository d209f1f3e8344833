// Choice of decisions: the hit is true, then free bits have the floor's values, then the most active node is false. Where a value
// contradicts the hit or the floor, the floor rises; where all have values, the floor is evaluated.
#![tactic(auto)]

ghost use Rattle.std.specs.Prelude.{◌≡◌, ◌-◌};
ghost use Rattle.resolve.specs.Draft as D;
ghost use Rattle.learning.specs.Learning as Ln;
ghost use Rattle.choices.specs.Choices as Ch;

use analysis::expand_all;
use floor::{Refutation, refute, show};
use heap::{at_place, skim};
use learning::{Order, Search, retreat, with_heap, with_order, with_trail};
use memory::{Arena, Draft, FACT, LEVEL, Netlist, REASON, VAL, field, opposite, set_literal};
use reasons::is_false;
use resolve::start;
use trail::{decide, value};

// Whether free bit v counts and does not have the floor's value.
fn differs(work: &[u32], nodes: u32, v: u32) -> bool
    ensures { result ≡ Ch.differs work.now nodes v }
{
    let b = field(work, nodes, v, FACT) / 4 % 4;
    if 2 <= b {
        return false;
    }
    field(work, nodes, v, VAL) != b
}

// The free bits after node v have the floor's values up to this one, of those up to node `end`.
fn agree(work: &[u32], nodes: u32, v: u32, end: u32) -> u32
    ensures { result ≡ Ch.agreed work.now nodes v (end - v) }
{
    for at in v..end {
        if differs(work, nodes, at + 1) {
            return at;
        }
    }
    v.max(end)
}

// The literal of free bit v that is true at the floor.
fn wish(work: &[u32], nodes: u32, v: u32) -> u32
    ensures { result ≡ Ch.wish work.now nodes v }
{
    if 1073741824 <= v {
        return 1;
    }
    if field(work, nodes, v, FACT) / 4 % 4 == 1 {
        return 2 * v;
    }
    2 * v + 1
}

fn with_verdict(o: Order, x: u32) -> Order
    ensures { result ≡ Ch.with_verdict o x }
{
    Order { verdict: x, ..o }
}

fn with_agreed(o: Order, v: u32) -> Order
    ensures { result ≡ Ch.with_agreed o v }
{
    Order { agreed: v, ..o }
}

// The search ends with this verdict.
fn end(s: Search, x: u32) -> Search
    ensures { result ≡ Ch.ended s x }
{
    let o = s.order;
    with_order(s, with_verdict(o, x))
}

// The working clause becomes that of literal l alone, if that is true in every hit.
fn start_literal(work: &mut [u32], net: Netlist, arena: Arena, l: u32) -> Draft
    ensures { D.Left work.new result (Ch.started_literal work.old net arena l) }
{
    let taken = 14 * (net.nodes as usize) + (arena.used as usize) + 6 * (arena.count as usize);
    if (net.words as usize) <= taken {
        return Draft {
            length: 0,
            whole: false,
        };
    }
    set_literal(work, net.nodes, arena.used, 0, l);
    Draft {
        length: 1,
        whole: true,
    }
}

// The working clause becomes one of literal l, which is true, and the complements of decisions.
fn explain(work: &mut [u32], net: Netlist, s: Search, l: u32) -> Draft
    ensures { D.Left work.new result (Ch.explained work.old net s l) }
{
    let a = s.arena;
    let n = s.trail.length;
    if is_false(work, net.nodes, opposite(l)) {
        return start_literal(work, net, a, l);
    }
    if l == net.root {
        return start(work, net, a, 4 * (l / 2 % 1073741824));
    }
    let why = field(work, net.nodes, l / 2, REASON);
    expand_all(work, net, a, n, why)
}

// The floor's bit at node i became 1: back to before the decision that it is 0.
fn release(work: &mut [u32], net: Netlist, s: Search, i: u32) -> Search
    ensures { Ln.Left work.new result (Ch.released work.old net s i) }
{
    let o = s.order;
    if field(work, net.nodes, i, VAL) == 0 {
        let to = field(work, net.nodes, i, LEVEL);
        return retreat(work, net, s, to.saturating_sub(1));
    }
    with_order(s, with_agreed(o, o.agreed.min(i.saturating_sub(1))))
}

// What becomes of the search after a raise of the floor.
fn conclude(work: &mut [u32], net: Netlist, s: Search, raise: Refutation) -> Search
    ensures { Ln.Left work.new result (Ch.concluded work.old net s raise) }
{
    match raise {
        Refutation::Raised(i) => release(work, net, s, i),
        Refutation::NoHit => end(s, 2),
        Refutation::Unlearnt => end(s, 3),
    }
}

// Literal l is true, against the hit or the floor.
fn contradict(work: &mut [u32], net: Netlist, s: Search, l: u32) -> Search
    ensures { Ln.Left work.new result (Ch.contradicted work.old net s l) }
{
    let a = s.arena;
    let d = explain(work, net, s, l);
    let raise = refute(work, net, a, d);
    conclude(work, net, s, raise)
}

// Clause r is violated at level 0: resolved with the reasons of its literals it has none left, and there is no hit.
pub fn conflict_at_zero(work: &mut [u32], net: Netlist, s: Search, r: u32) -> Search
    ensures { Ln.Left work.new result (Ch.contradicted_at_zero work.old net s r) }
{
    let a = s.arena;
    let n = s.trail.length;
    let d = expand_all(work, net, a, n, r);
    let raise = refute(work, net, a, d);
    conclude(work, net, s, raise)
}

// Literal l becomes true by decision.
fn take(work: &mut [u32], net: Netlist, s: Search, l: u32) -> Search
    ensures { Ln.Left work.new result (Ch.taken work.old net s l) }
{
    let t = s.trail;
    let u = decide(work, net, t, l);
    with_trail(s, u)
}

// Free bit v gets the floor's value.
fn assume(work: &mut [u32], net: Netlist, s: Search, v: u32) -> Search
    ensures { Ln.Left work.new result (Ch.assumed work.old net s v) }
{
    let l = wish(work, net.nodes, v);
    if value(work, net.nodes, l) == 0 {
        return contradict(work, net, s, opposite(l));
    }
    take(work, net, s, l)
}

// a + b, or the largest number where that is too large for one.
fn sum(a: u64, b: u64) -> u64
    ensures { result ≡ Ch.sum a b }
{
    a.saturating_add(b)
}

fn ordered(o: Order, sweep: bool, goal: u32, more: u64) -> Order
    ensures { result ≡ Ch.ordered o sweep goal more }
{
    Order {
        sweep,
        goal,
        slice: sum(o.ticks, more),
        ..o
    }
}

// Another order, for so many ticks, from level 0 on.
pub fn change(
    work: &mut [u32],
    net: Netlist,
    s: Search,
    sweep: bool,
    goal: u32,
    more: u64,
) -> Search
    ensures { Ln.Left work.new result (Ch.changed work.old net s sweep goal more) }
{
    let o = s.order;
    retreat(work, net, with_order(s, ordered(o, sweep, goal, more)), 0)
}

// All free bits that count have the floor's values: whether that is a hit.
fn confirm(work: &mut [u32], net: Netlist, s: Search) -> Search
    ensures { Ln.Left work.new result (Ch.confirmed work.old net s) }
{
    if show(work, net) {
        return end(s, 1);
    }
    end(s, 3)
}

// All nodes that may be decided have values. If the free bits have the floor's, the floor may be a hit; else those up to the first that
// has not have them from now on.
fn model(work: &mut [u32], net: Netlist, s: Search) -> Search
    ensures { Ln.Left work.new result (Ch.modelled work.old net s) }
{
    let o = s.order;
    let a = agree(work, net.nodes, o.agreed, net.free);
    if a < net.free {
        return change(work, net, s, true, a + 1, 30000);
    }
    confirm(work, net, s)
}

// The most active node becomes false.
fn decide_active(work: &mut [u32], net: Netlist, s: Search) -> Search
    ensures { Ln.Left work.new result (Ch.decided_active work.old net s) }
{
    let h = s.heap;
    let g = skim(work, net.nodes, h, h.size);
    if g.size == 0 {
        return model(work, net, with_heap(s, g));
    }
    let v = at_place(work, net.nodes, 0) % 65536;
    take(work, net, with_heap(s, g), 2 * v + 1)
}

// Free bits up to node `end` have the floor's values; then the most active node becomes false.
fn decide_next(work: &mut [u32], net: Netlist, s: Search, end: u32) -> Search
    ensures { Ln.Left work.new result (Ch.decided_next work.old net s end) }
{
    let o = s.order;
    let a = agree(work, net.nodes, o.agreed, end);
    let u = with_order(s, with_agreed(o, a));
    if a < end {
        return assume(work, net, u, a + 1);
    }
    decide_active(work, net, u)
}

// The next decision.
pub fn choose(work: &mut [u32], net: Netlist, s: Search) -> Search
    ensures { Ln.Left work.new result (Ch.chosen work.old net s) }
{
    let o = s.order;
    let x = value(work, net.nodes, net.root);
    if x == 2 {
        return take(work, net, s, net.root);
    }
    if x == 0 {
        return contradict(work, net, s, opposite(net.root));
    }
    if o.sweep {
        return decide_next(work, net, s, net.free);
    }
    decide_next(work, net, s, o.goal)
}
