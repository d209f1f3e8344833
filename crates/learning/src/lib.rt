// Learning from a conflict: the clause of the analysis is kept, or fixed where it has one literal, and the search goes back to where
// that clause implies a literal.
#![tactic(auto)]

ghost use Rattle.std.specs.Prelude.{◌≡◌, ◌<◌};
ghost use Rattle.learning.specs.Learning as Ln;

use analysis::analyse;
use heap::{cool, restore};
use kept::{attach, detach, keep, settle};
use memory::{Arena, Draft, Heap, LEVEL, Netlist, Trail, UNDEF, field, literal};
use settling::settle_all;
use trail::{State, assign, backtrack};

// In which order the search decides, and what it has come to: whether free bits take the floor's values first, all of them or those up
// to `goal`; up to which free bit they have them; how many entries of the trail are settled; the verdict (0: none yet, 1: the floor is
// a hit, 2: there is no hit, 3: given up); the work done, the work after which the order changes, and how much work an order has.
#[derive(Clone, Copy)]
pub struct Order {
    pub sweep: bool,
    pub goal: u32,
    pub agreed: u32,
    pub settled: u32,
    pub verdict: u32,
    pub ticks: u64,
    pub slice: u64,
    pub span: u64,
}

// Where a search stands.
#[derive(Clone, Copy)]
pub struct Search {
    pub trail: State,
    pub arena: Arena,
    pub heap: Heap,
    pub order: Order,
}

// Two literals of a clause, the one of the higher level first.
#[derive(Clone, Copy)]
struct TopTwo {
    first: u32,
    second: u32,
}

pub fn with_trail(s: Search, t: State) -> Search
    ensures { result ≡ Ln.with_trail s t }
{
    Search { trail: t, ..s }
}

fn with_arena(s: Search, a: Arena) -> Search
    ensures { result ≡ Ln.with_arena s a }
{
    Search { arena: a, ..s }
}

pub fn with_heap(s: Search, h: Heap) -> Search
    ensures { result ≡ Ln.with_heap s h }
{
    Search { heap: h, ..s }
}

pub fn with_order(s: Search, o: Order) -> Search
    ensures { result ≡ Ln.with_order s o }
{
    Search { order: o, ..s }
}

// No free bit is known to have the floor's value.
fn none_agreed(o: Order) -> Order
    ensures { result ≡ Ln.none_agreed o }
{
    Order { agreed: 0, ..o }
}

// Back to level `to`.
pub fn retreat(work: &mut [u32], net: Netlist, s: Search, to: u32) -> Search
    ensures { Ln.Left work.new result (Ln.retreated work.old net s to) }
{
    let t = s.trail;
    let h = s.heap;
    let u = backtrack(work, net, t, to);
    let g = restore(work, net, h, u.length, t.length);
    let a = s.arena;
    let o = none_agreed(s.order);
    Search {
        trail: u,
        arena: a,
        heap: g,
        order: o,
    }
}

// So many entries of the trail are settled.
fn all_settled(o: Order, n: u32) -> Order
    ensures { result ≡ Ln.all_settled o n }
{
    Order { settled: n, ..o }
}

// At level 0, literals of the trail are fixed.
pub fn settle_level(work: &mut [u32], net: Netlist, s: Search) -> Search
    ensures { Ln.Left work.new result (Ln.settled_level work.old net s) }
{
    let t = s.trail;
    let a = s.arena;
    let o = s.order;
    if t.level == 0 {
        settle_all(work, net, a, o.settled, t.length);
        return with_order(s, all_settled(o, t.length));
    }
    s
}

// Back to level 0, with no kept clause.
pub fn forget(work: &mut [u32], net: Netlist, s: Search) -> Search
    ensures { Ln.Left work.new result (Ln.forgotten work.old net s) }
{
    let u = retreat(work, net, s, 0);
    let v = settle_level(work, net, u);
    detach(work, net, net.nodes);
    with_arena(v, Arena { used: 0, count: 0 })
}

// Literal l becomes true, for this reason.
fn assert(work: &mut [u32], net: Netlist, s: Search, l: u32, why: u32) -> Search
    ensures { Ln.Left work.new result (Ln.asserted work.old net s l why) }
{
    let t = s.trail;
    let u = assign(work, net, t, l, why);
    with_trail(s, u)
}

// Literals a and b, the one of the higher level first.
fn rank_two(work: &[u32], nodes: u32, a: u32, b: u32) -> TopTwo
    ensures { result ≡ Ln.ranked_two work.now nodes a b }
{
    if field(work, nodes, a / 2, LEVEL) < field(work, nodes, b / 2, LEVEL) {
        return TopTwo {
            first: b,
            second: a,
        };
    }
    TopTwo {
        first: a,
        second: b,
    }
}

// The two of highest level among literal l and two others, which stand in their order.
fn rank(work: &[u32], nodes: u32, h: TopTwo, l: u32) -> TopTwo
    ensures { result ≡ Ln.ranked work.now nodes h l }
{
    let level = field(work, nodes, l / 2, LEVEL);
    if field(work, nodes, h.first / 2, LEVEL) < level {
        return TopTwo {
            first: l,
            second: h.first,
        };
    }
    if field(work, nodes, h.second / 2, LEVEL) < level {
        return TopTwo {
            first: h.first,
            second: l,
        };
    }
    h
}

// The two literals of highest level among the first n of the working clause.
fn highest(work: &[u32], net: Netlist, arena: Arena, n: u32) -> TopTwo
    requires { 1 < n }
    ensures { result ≡ Ln.highest work.now net arena n }
{
    let a = literal(work, net.nodes, arena.used, n - 1);
    let b = literal(work, net.nodes, arena.used, n - 2);
    let mut best = rank_two(work, net.nodes, a, b);
    for i in (0..n - 2).rev() {
        let l = literal(work, net.nodes, arena.used, i);
        best = rank(work, net.nodes, best, l);
    }
    best
}

// The level of literal o, or the one before this level, if that is less.
fn target(work: &[u32], nodes: u32, o: u32, level: u32) -> u32
    ensures { result ≡ Ln.target work.now nodes o level }
{
    let to = field(work, nodes, o / 2, LEVEL);
    if to < level {
        return to;
    }
    level.saturating_sub(1)
}

// The last kept clause watches literals l and o, and implies l.
fn watch(work: &mut [u32], net: Netlist, s: Search, l: u32, o: u32) -> Search
    ensures { Ln.Left work.new result (Ln.watched work.old net s l o) }
{
    let n = s.arena.count;
    if n == 0 {
        return s;
    }
    if 1073741823 <= n {
        return s;
    }
    attach(work, net, n - 1, 0, l);
    attach(work, net, n - 1, 1, o);
    assert(work, net, s, l, 4 * (n - 1) + 3)
}

// After the clause was kept, unless there was no room: the count was `old`.
fn install(work: &mut [u32], net: Netlist, s: Search, l: u32, o: u32, old: u32) -> Search
    ensures { Ln.Left work.new result (Ln.installed work.old net s l o old) }
{
    let n = s.arena.count;
    if n == old {
        return forget(work, net, s);
    }
    watch(work, net, s, l, o)
}

// Keeps the working clause, which has two literals or more, and goes back to where it implies one.
fn keep_clause(work: &mut [u32], net: Netlist, s: Search, d: Draft) -> Search
    requires { 1 < d.length }
    ensures { Ln.Left work.new result (Ln.kept_clause work.old net s d) }
{
    let a = s.arena;
    let t = s.trail;
    let h = highest(work, net, a, d.length);
    let to = target(work, net.nodes, h.second, t.level);
    let b = keep(work, net, a, d, 0);
    let u = retreat(work, net, with_arena(s, b), to);
    install(work, net, u, h.first, h.second, a.count)
}

// Fixes the literal of the working clause, which has one.
fn keep_literal(work: &mut [u32], net: Netlist, s: Search, d: Draft) -> Search
    ensures { Ln.Left work.new result (Ln.kept_literal work.old net s d) }
{
    let a = s.arena;
    let l = literal(work, net.nodes, a.used, 0);
    settle(work, net, a, d);
    let u = retreat(work, net, s, 0);
    assert(work, net, u, l, UNDEF)
}

// Keeps the working clause.
fn store(work: &mut [u32], net: Netlist, s: Search, d: Draft) -> Search
    ensures { Ln.Left work.new result (Ln.stored_clause work.old net s d) }
{
    if d.whole {
        if d.length == 1 {
            return keep_literal(work, net, s, d);
        }
        if 1 < d.length {
            return keep_clause(work, net, s, d);
        }
        return forget(work, net, s);
    }
    forget(work, net, s)
}

// Clause r is violated.
pub fn learn(work: &mut [u32], net: Netlist, s: Search, r: u32) -> Search
    ensures { Ln.Left work.new result (Ln.learnt work.old net s r) }
{
    let t = s.trail;
    let a = s.arena;
    let h = s.heap;
    let g = cool(work, net.nodes, h);
    let d = analyse(
        work,
        net,
        a,
        Trail {
            length: t.length,
            next: t.next,
            level: t.level,
            ticks: 0,
        },
        r,
        g.step,
    );
    store(work, net, with_heap(s, g), d)
}
