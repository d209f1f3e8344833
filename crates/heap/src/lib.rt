// The heap of nodes by activity: the node from which the search decides next. Word HEAP of a record has the node that stands at the
// place of that number, and 65536 times the place of the record's own node. Nothing is claimed of it.
#![tactic(auto)]

ghost use Rattle.std.specs.Prelude.{◌≡◌};
ghost use Rattle.heap.specs.Heap as Hp;

use memory::{ACT, FACT, HEAP, Heap, LARGEST, Netlist, TRAIL, VAL, field, set_field};

// The node at place i.
pub fn at_place(work: &[u32], nodes: u32, i: u32) -> u32
    ensures { result ≡ Hp.node_at work.now nodes i }
{
    field(work, nodes, i, HEAP) % 65536
}

// The place of node v.
fn place_of(work: &[u32], nodes: u32, v: u32) -> u32
    ensures { result ≡ Hp.place_of work.now nodes v }
{
    field(work, nodes, v, HEAP) / 65536
}

// Puts node v at place i.
fn seat(work: &mut [u32], nodes: u32, i: u32, v: u32)
    ensures { work.new ≡ Hp.seated work.old nodes i v }
{
    let x = field(work, nodes, i, HEAP);
    set_field(work, nodes, i, HEAP, x - x % 65536 + v % 65536);
    let y = field(work, nodes, v, HEAP);
    set_field(work, nodes, v, HEAP, y % 65536 + 65536 * (i % 65536));
}

// Whether node v stands in a heap of this size.
fn is_seated(work: &[u32], nodes: u32, size: u32, v: u32) -> bool
    ensures { result ≡ Hp.is_seated work.now nodes size v }
{
    let i = place_of(work, nodes, v);
    if size <= i {
        return false;
    }
    at_place(work, nodes, i) == v
}

// The place above place i.
fn parent(i: u32) -> u32
    ensures { result ≡ Hp.parent i }
{
    if i == 0 { 0 } else { (i - 1) / 2 }
}

// Whether node v is more active than the node above place i.
fn is_above(work: &[u32], nodes: u32, i: u32, v: u32) -> bool
    ensures { result ≡ Hp.is_above work.now nodes i v }
{
    if i == 0 {
        return false;
    }
    let x = at_place(work, nodes, parent(i));
    field(work, nodes, x, ACT) < field(work, nodes, v, ACT)
}

// The node above place i moves down to it.
fn lower(work: &mut [u32], nodes: u32, i: u32)
    ensures { work.new ≡ Hp.lowered work.old nodes i }
{
    let x = at_place(work, nodes, parent(i));
    seat(work, nodes, i, x);
}

// Node v rises from place i, n places at most.
fn up(work: &mut [u32], nodes: u32, i: u32, v: u32, n: u32)
    ensures { work.new ≡ Hp.upped work.old nodes v i n }
{
    let mut at = i;
    for _ in 0..n {
        if is_above(work, nodes, at, v) {
            lower(work, nodes, at);
            at = parent(at);
        } else {
            seat(work, nodes, at, v);
            return;
        }
    }
    seat(work, nodes, at, v);
}

// The left place below place i, or the largest word.
fn child(i: u32) -> u32
    ensures { result ≡ Hp.child i }
{
    if 1073741824 <= i { LARGEST } else { 2 * i + 1 }
}

// Of place i and the place after it, the one whose node is more active.
fn larger(work: &[u32], nodes: u32, size: u32, i: u32) -> u32
    ensures { result ≡ Hp.larger work.now nodes size i }
{
    if size <= i {
        return i;
    }
    if size <= i + 1 {
        return i;
    }
    let x = at_place(work, nodes, i);
    let y = at_place(work, nodes, i + 1);
    if field(work, nodes, x, ACT) < field(work, nodes, y, ACT) {
        return i + 1;
    }
    i
}

// Whether the node at place i is more active than node v.
fn is_below(work: &[u32], nodes: u32, size: u32, i: u32, v: u32) -> bool
    ensures { result ≡ Hp.is_below work.now nodes size i v }
{
    if size <= i {
        return false;
    }
    let x = at_place(work, nodes, i);
    field(work, nodes, v, ACT) < field(work, nodes, x, ACT)
}

// The node at place `from` moves to place i.
fn lift(work: &mut [u32], nodes: u32, i: u32, from: u32)
    ensures { work.new ≡ Hp.lifted work.old nodes i from }
{
    let x = at_place(work, nodes, from);
    seat(work, nodes, i, x);
}

// Node v sinks from place 0, n places at most.
fn down(work: &mut [u32], nodes: u32, size: u32, v: u32, n: u32)
    ensures { work.new ≡ Hp.downed work.old nodes size v 0 n }
{
    let mut at = 0;
    for _ in 0..n {
        let c = larger(work, nodes, size, child(at));
        if is_below(work, nodes, size, c, v) {
            lift(work, nodes, at, c);
            at = c;
        } else {
            seat(work, nodes, at, v);
            return;
        }
    }
    seat(work, nodes, at, v);
}

// Whether node v, which stands at place i, has no need to rise.
fn stays(work: &[u32], nodes: u32, i: u32, v: u32) -> bool
    ensures { result ≡ Hp.stays work.now nodes i v }
{
    if 65536 <= i {
        return false;
    }
    if is_above(work, nodes, i, v) {
        return false;
    }
    true
}

// Node v is in the heap, where its activity says.
pub fn rise(work: &mut [u32], nodes: u32, heap: Heap, v: u32) -> Heap
    ensures { Hp.Left work.new result (Hp.risen work.old nodes heap v) }
{
    if is_seated(work, nodes, heap.size, v) {
        let i = place_of(work, nodes, v);
        if stays(work, nodes, i, v) {
            return heap;
        }
        up(work, nodes, i, v, 32);
        return heap;
    }
    if nodes <= heap.size {
        return heap;
    }
    up(work, nodes, heap.size, v, 32);
    Heap {
        size: heap.size + 1,
        ..heap
    }
}

// Takes the most active node out.
fn drop_top(work: &mut [u32], nodes: u32, heap: Heap) -> Heap
    ensures { Hp.Left work.new result (Hp.dropped work.old nodes heap) }
{
    if heap.size <= 1 {
        return Heap { size: 0, ..heap };
    }
    let x = at_place(work, nodes, heap.size - 1);
    down(work, nodes, heap.size - 1, x, 32);
    Heap {
        size: heap.size - 1,
        ..heap
    }
}

// Takes out nodes that have values, until the most active one has none, n of them at most.
pub fn skim(work: &mut [u32], nodes: u32, heap: Heap, n: u32) -> Heap
    ensures { Hp.Left work.new result (Hp.skimmed work.old nodes heap n) }
{
    let mut h = heap;
    for _ in 0..n {
        let x = at_place(work, nodes, 0);
        if field(work, nodes, x, VAL) == 2 {
            return h;
        }
        h = drop_top(work, nodes, h);
    }
    h
}

// The activities of the first n nodes fall to a 1048576th.
fn scale(work: &mut [u32], nodes: u32, n: u32)
    ensures { work.new ≡ Hp.scaled work.old nodes n }
{
    for v in (0..n).rev() {
        let x = field(work, nodes, v, ACT);
        set_field(work, nodes, v, ACT, x / 1048576);
    }
}

// After a conflict: later ones count for a tenth more.
pub fn cool(work: &mut [u32], nodes: u32, heap: Heap) -> Heap
    ensures { Hp.Left work.new result (Hp.cooled work.old nodes heap) }
{
    if heap.step < 268435456 {
        return Heap {
            step: heap.step + heap.step / 10 + 1,
            ..heap
        };
    }
    scale(work, nodes, nodes);
    Heap {
        step: heap.step / 1048576 + 1,
        ..heap
    }
}

// Whether the search may decide node v: a free bit on which the hit depends, or a gate that was in a conflict.
fn is_wanted(work: &[u32], net: Netlist, v: u32) -> bool
    ensures { result ≡ Hp.is_wanted work.now net v }
{
    if net.free < v {
        return 0 < field(work, net.nodes, v, ACT);
    }
    field(work, net.nodes, v, FACT) / 4 % 4 < 2
}

// Node v is in the heap, if it may be decided.
pub fn admit(work: &mut [u32], net: Netlist, heap: Heap, v: u32) -> Heap
    ensures { Hp.Left work.new result (Hp.admitted work.old net heap v) }
{
    if is_wanted(work, net, v) {
        return rise(work, net.nodes, heap, v);
    }
    heap
}

// The entries of the trail from place `from` on, of n: their nodes have lost their values.
pub fn restore(work: &mut [u32], net: Netlist, heap: Heap, from: u32, n: u32) -> Heap
    ensures { Hp.Left work.new result (Hp.restored work.old net heap from n) }
{
    let mut h = heap;
    for t in (from..n).rev() {
        let v = field(work, net.nodes, t, TRAIL) / 2;
        h = admit(work, net, h, v);
    }
    h
}
