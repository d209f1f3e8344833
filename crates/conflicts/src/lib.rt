// The conflict search: the first place in counting order at which the root of a netlist is true, or that there is none, within an effort.
#![tactic(auto)]

ghost use Rattle.std.specs.Prelude.{◌≡◌, ◌-◌, ◌+◌, ◌*◌};
ghost use Rattle.heap.specs.Heap as Hp;
ghost use Rattle.learning.specs.Learning as Ln;
ghost use Rattle.conflicts.specs.Conflicts as Cf;

use choices::{change, choose, conflict_at_zero};
use heap::admit;
use learning::{Order, Search, forget, learn, settle_level, with_order};
use memory::{Arena, Heap, Netlist, UNDEF, put, set_field, successor};
use settling::propagate;
use trail::State;

// What the search has come to: the floor is the first place that hits; no place hits, which took so much of the effort; or it is given up.
#[derive(Clone, Copy)]
pub enum Verdict {
    Found,
    Clear(u64),
    Out,
}

// What guides the search, in the record of node v, as it is before the first decision. Word 5: the value.
fn reset(work: &mut [u32], nodes: u32, v: u32, value: u32)
    ensures { work.new ≡ Cf.reset work.old nodes v value }
{
    set_field(work, nodes, v, 3, 0);
    set_field(work, nodes, v, 4, UNDEF);
    set_field(work, nodes, v, 5, value);
    set_field(work, nodes, v, 6, 0);
    set_field(work, nodes, v, 7, UNDEF);
}

fn reset_rest(work: &mut [u32], nodes: u32, v: u32)
    ensures { work.new ≡ Cf.reset_rest work.old nodes v }
{
    set_field(work, nodes, v, 8, UNDEF);
    set_field(work, nodes, v, 9, 0);
    set_field(work, nodes, v, 10, 0);
    set_field(work, nodes, v, 11, 0);
}

// The same of the first n nodes.
fn reset_all(work: &mut [u32], nodes: u32, n: u32)
    ensures { work.new ≡ Cf.reset_all work.old nodes n }
{
    for v in (0..n).rev() {
        reset(work, nodes, v, 2);
        reset_rest(work, nodes, v);
    }
}

// The words from i on, up to word n, are 0.
fn wipe(work: &mut [u32], i: usize, n: usize)
    ensures { work.new ≡ Cf.wiped work.old i (n - i) }
{
    for at in i..n {
        put(work, at, 0);
    }
}

// Before the first decision: no node has a value but node 0, which is false, and nothing that memory held is left.
fn prepare(work: &mut [u32], net: Netlist)
    ensures { work.new ≡ Cf.prepared work.old net }
{
    reset_all(work, net.nodes, net.nodes);
    set_field(work, net.nodes, 0, 5, 0);
    wipe(work, 14 * (net.nodes as usize), net.words as usize);
}

// The free bits up to node n that count are in the heap.
fn fill(work: &mut [u32], net: Netlist, heap: Heap, n: u32) -> Heap
    ensures { Hp.Left work.new result (Cf.filled work.old net heap 1 n) }
{
    let mut h = heap;
    let mut v = 1;
    for _ in 0..n {
        h = admit(work, net, h, v);
        v = successor(v);
    }
    h
}

// Where the search stands before the first decision.
fn initial(heap: Heap) -> Search
    ensures { result ≡ Cf.initial heap }
{
    let t = State {
        length: 0,
        next: 0,
        level: 0,
        ticks: 0,
        clash: UNDEF,
        clause: UNDEF,
        link: UNDEF,
    };
    let a = Arena { used: 0, count: 0 };
    let o = Order {
        sweep: true,
        goal: 0,
        agreed: 0,
        settled: 0,
        verdict: 0,
        ticks: 0,
        slice: 2000,
        span: 75000,
    };
    Search {
        trail: t,
        arena: a,
        heap: heap,
        order: o,
    }
}

// The work of entries from place `from` to place `to` of the trail, and one.
fn work_of(from: u32, to: u32) -> u64
    ensures { result ≡ Cf.work_of from to }
{
    u64::from(to.saturating_sub(from)) + 1
}

// a + b, or the largest number where that is too large for one.
fn sum(a: u64, b: u64) -> u64
    ensures { result ≡ Cf.sum a b }
{
    a.saturating_add(b)
}

fn counted(o: Order, n: u64) -> Order
    ensures { result ≡ Cf.counted o n }
{
    Order {
        ticks: sum(o.ticks, n),
        ..o
    }
}

// The consequences of all values, and the work that this took.
fn follow(work: &mut [u32], net: Netlist, s: Search) -> Search
    ensures { Ln.Left work.new result (Cf.followed work.old net s) }
{
    let t = s.trail;
    let a = s.arena;
    let h = s.heap;
    let u = propagate(work, net, a, t, net.nodes);
    let o = counted(s.order, work_of(t.next, u.next));
    Search {
        trail: u,
        arena: a,
        heap: h,
        order: o,
    }
}

// Whether room for kept clauses runs short.
fn is_full(net: Netlist, a: Arena) -> bool
    ensures { result ≡ Cf.is_full net a }
{
    let taken = 14 * (net.nodes as usize) + (a.used as usize) + 6 * (a.count as usize);
    let spare = (net.words as usize) / 16 + 16;
    (net.words as usize) < taken + spare
}

// Drops the kept clauses if their room runs short.
fn relieve(work: &mut [u32], net: Netlist, s: Search) -> Search
    ensures { Ln.Left work.new result (Cf.relieved work.old net s) }
{
    let a = s.arena;
    if is_full(net, a) {
        return forget(work, net, s);
    }
    s
}

fn doubled(o: Order) -> Order
    ensures { result ≡ Cf.doubled o }
{
    Order {
        span: sum(o.span, o.span),
        ..o
    }
}

// The other order, if this one has had its share of the work.
fn alternate(work: &mut [u32], net: Netlist, s: Search) -> Search
    ensures { Ln.Left work.new result (Cf.alternated work.old net s) }
{
    let o = s.order;
    if o.ticks <= o.slice {
        return s;
    }
    if o.sweep {
        let d = doubled(o);
        return change(work, net, with_order(s, d), false, o.goal, d.span);
    }
    let twice = sum(o.span, o.span);
    let more = sum(twice, twice);
    change(work, net, s, true, o.goal, more)
}

// A clause is violated.
fn repair(work: &mut [u32], net: Netlist, s: Search) -> Search
    ensures { Ln.Left work.new result (Cf.repaired work.old net s) }
{
    let t = s.trail;
    if t.level == 0 {
        return conflict_at_zero(work, net, s, t.clash);
    }
    let u = learn(work, net, s, t.clash);
    let v = relieve(work, net, u);
    alternate(work, net, v)
}

// No clause is violated.
fn extend(work: &mut [u32], net: Netlist, s: Search) -> Search
    ensures { Ln.Left work.new result (Cf.extended work.old net s) }
{
    let u = settle_level(work, net, s);
    choose(work, net, u)
}

// One propagation, and a decision or a learnt clause.
fn step(work: &mut [u32], net: Netlist, s: Search) -> Search
    ensures { Ln.Left work.new result (Cf.stepped work.old net s) }
{
    let u = follow(work, net, s);
    let c = u.trail.clash;
    if c == UNDEF {
        return extend(work, net, u);
    }
    repair(work, net, u)
}

// Steps until there is a verdict or the effort is spent.
fn steps(work: &mut [u32], net: Netlist, s: Search, effort: u64) -> Search
    ensures { Ln.Left work.new result (Cf.steps work.old net s effort effort) }
{
    let mut u = s;
    for _ in 0..effort {
        let o = u.order;
        if o.verdict != 0 {
            return u;
        }
        if effort <= o.ticks {
            return u;
        }
        u = step(work, net, u);
    }
    u
}

// The verdict's number as a verdict, after so much work.
fn verdict_of(x: u32, ticks: u64) -> Verdict
    ensures { result ≡ Cf.verdict_of x ticks }
{
    if x == 1 {
        return Verdict::Found;
    }
    if x == 2 {
        return Verdict::Clear(ticks);
    }
    Verdict::Out
}

// Searches the netlist in these words. On Found the floor is the first place that hits.
pub fn run(work: &mut [u32], net: Netlist, effort: u64) -> Verdict
    ensures { Cf.Ran work.new result (Cf.ran work.old net effort) }
{
    prepare(work, net);
    let h = fill(
        work,
        net,
        Heap {
            size: 0,
            step: 1024,
        },
        net.free,
    );
    let s = steps(work, net, initial(h), effort);
    let o = s.order;
    verdict_of(o.verdict, o.ticks)
}
