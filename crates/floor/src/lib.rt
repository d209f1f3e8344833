// The floor: the place in counting order below which there is no hit, one bit in the record of each free bit. It rises where a clause that
// holds in every hit is false there, and it is shown to hit by evaluation.
#![tactic(auto)]

ghost use Rattle.std.specs.Prelude.{◌≡◌};
ghost use Rattle.floor.specs.Place as P;

use memory::{Arena, Draft, FACT, Netlist, POS, field, literal, opposite, set_field};

// What a clause does to the floor: the bit of this node becomes 1; no place is left, so that there is no hit; nothing is learnt.
#[derive(Clone, Copy)]
pub enum Refutation {
    Raised(u32),
    NoHit,
    Unlearnt,
}

// The bit of node v, or 2 where the hit does not depend on it.
fn bit(work: &[u32], nodes: u32, v: u32) -> u32
    ensures { result ≡ P.bit_of work.now nodes v }
{
    field(work, nodes, v, FACT) / 4 % 4
}

// Whether literal l is no free bit's, or true at the floor. The complement of the hit counts as false.
fn is_wrong(work: &[u32], net: Netlist, l: u32) -> bool
    ensures { result ≡ P.is_wrong work.now net l }
{
    if l == opposite(net.root) {
        return false;
    }
    if l / 2 == 0 {
        return true;
    }
    if net.free < l / 2 {
        return true;
    }
    if bit(work, net.nodes, l / 2) == 1 {
        return l % 2 == 0;
    }
    l % 2 == 1
}

// The later of top and the node of literal l, unless that is the complement of the hit.
fn later(net: Netlist, l: u32, top: u32) -> u32
    ensures { result ≡ P.later net l top }
{
    if l == opposite(net.root) {
        return top;
    }
    if top < l / 2 { l / 2 } else { top }
}

// By how many free bits the first n literals of the working clause are false at the floor: up to the last that they name, or none where
// one of them is wrong.
fn test_clause(work: &[u32], net: Netlist, arena: Arena, n: u32) -> Option<u32>
    ensures { result ≡ P.judged work.now net arena n 0 }
{
    let mut top = 0;
    for i in (0..n).rev() {
        let l = literal(work, net.nodes, arena.used, i);
        if is_wrong(work, net, l) {
            return None;
        }
        top = later(net, l, top);
    }
    Some(top)
}

// Whether node v is idle: its operands differ.
fn is_idle(work: &[u32], nodes: u32, v: u32) -> bool
    ensures { result ≡ P.is_idle work.now nodes v }
{
    field(work, nodes, v, 0) != field(work, nodes, v, 1)
}

// The bit of node v becomes 0, if it is 1; that of an idle node no longer counts.
fn clear(work: &mut [u32], nodes: u32, v: u32)
    ensures { work.new ≡ P.cleared work.old nodes v }
{
    let fact = field(work, nodes, v, FACT);
    if is_idle(work, nodes, v) {
        set_field(work, nodes, v, FACT, fact / 16 * 16 + 8 + fact % 4);
        return;
    }
    if fact / 4 % 4 == 1 {
        set_field(work, nodes, v, FACT, fact - 4);
    }
}

// The bit of node v becomes 1, if it is 0.
fn lift(work: &mut [u32], nodes: u32, v: u32)
    ensures { work.new ≡ P.lifted work.old nodes v }
{
    let fact = field(work, nodes, v, FACT);
    if fact / 4 % 4 == 0 {
        set_field(work, nodes, v, FACT, fact + 4);
    }
}

// Whether the floor can rise at node v: up to node m, a bit that counts and is 0.
fn can_rise(work: &[u32], nodes: u32, m: u32, v: u32) -> bool
    ensures { result ≡ P.can_rise work.now nodes m v }
{
    let b = bit(work, nodes, v);
    (v <= m) & (b == 0)
}

// The floor becomes the next place after those that share its bits up to node m, among those that are 0 where the hit does not depend on
// the bit, if there is such a place.
fn raise(work: &mut [u32], nodes: u32, m: u32, n: u32) -> Refutation
    ensures { P.RiseLeft work.new result (P.raised work.old nodes m n) }
{
    for k in (0..n).rev() {
        let v = k + 1;
        if can_rise(work, nodes, m, v) {
            lift(work, nodes, v);
            return Refutation::Raised(v);
        }
        clear(work, nodes, v);
    }
    Refutation::NoHit
}

// Raises the floor by the working clause, if that is whole and false there.
pub fn refute(work: &mut [u32], net: Netlist, arena: Arena, d: Draft) -> Refutation
    ensures { P.RiseLeft work.new result (P.refuted work.old net arena d) }
{
    if d.whole {
        let Some(m) = test_clause(work, net, arena, d.length) else {
            return Refutation::Unlearnt;
        };
        return raise(work, net.nodes, m, net.free);
    }
    Refutation::Unlearnt
}

// The value of edge e, where word POS has the values of nodes.
fn edge(work: &[u32], nodes: u32, e: u32) -> u32
    ensures { result ≡ P.edge work.now nodes e }
{
    let x = field(work, nodes, e / 2, POS);
    if e % 2 == 0 {
        return x;
    }
    if x == 0 { 1 } else { 0 }
}

// The value of node v at the floor, where word POS has the values of the nodes before it.
fn value(work: &[u32], net: Netlist, v: u32) -> u32
    ensures { result ≡ P.node_value work.now net v }
{
    if v == 0 {
        return 0;
    }
    if v <= net.free {
        return if bit(work, net.nodes, v) == 1 { 1 } else { 0 };
    }
    if edge(work, net.nodes, field(work, net.nodes, v, 0)) == 0 {
        return 0;
    }
    edge(work, net.nodes, field(work, net.nodes, v, 1))
}

// Fills word POS with the values of the first n nodes at the floor.
fn evaluate(work: &mut [u32], net: Netlist, n: u32)
    ensures { work.new ≡ P.evaluated work.old net 0 n }
{
    for v in 0..n {
        let x = value(work, net, v);
        set_field(work, net.nodes, v, POS, x);
    }
}

// Whether the floor is a hit.
pub fn show(work: &mut [u32], net: Netlist) -> bool
    ensures { P.Shown work.new result work.old net }
{
    evaluate(work, net, net.nodes);
    edge(work, net.nodes, net.root) == 1
}
