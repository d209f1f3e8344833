// Propagation through gates: the consequences of values. Nothing is claimed of it but the words it leaves alone.
#![tactic(auto)]

ghost use Rattle.std.specs.Prelude.{◌≡◌, ◌*◌, ◌≤◌, ◌<◌, length};
ghost use Rattle.trail.specs.Trail as T;
ghost use Rattle.propagation.specs.Gates as G;

use memory::{Netlist, UNDEF, field, opposite};
use trail::{State, assign, value};

// What the values of a gate and of its operands imply: that the clause of its left operand, of the right one or of both is violated; that
// the left or right operand is true, or the right or left one false; that the gate is false because of the left or right one; or that it
// is true.
#[derive(Clone, Copy)]
enum Consequence {
    LeftViolated,
    RightViolated,
    BothViolated,
    LeftTrue,
    RightTrue,
    RightFalse,
    LeftFalse,
    FalseByLeft,
    FalseByRight,
    True,
}

// What the values o of a gate and x, y of its operands imply, if anything.
fn rule(o: u32, x: u32, y: u32) -> Option<Consequence>
    ensures { result ≡ G.rule o x y }
{
    if o == 1 {
        return rule_true(x, y);
    }
    if o == 0 {
        return rule_false(x, y);
    }
    if x == 0 {
        return Some(Consequence::FalseByLeft);
    }
    if y == 0 {
        return Some(Consequence::FalseByRight);
    }
    if x == 1 {
        return if y == 1 {
            Some(Consequence::True)
        } else {
            None
        };
    }
    None
}

// The same of a gate that is true.
fn rule_true(x: u32, y: u32) -> Option<Consequence>
    ensures { result ≡ G.rule_true x y }
{
    if x == 0 {
        return Some(Consequence::LeftViolated);
    }
    if y == 0 {
        return Some(Consequence::RightViolated);
    }
    if x == 2 {
        return Some(Consequence::LeftTrue);
    }
    if y == 2 {
        Some(Consequence::RightTrue)
    } else {
        None
    }
}

// The same of a gate that is false.
fn rule_false(x: u32, y: u32) -> Option<Consequence>
    ensures { result ≡ G.rule_false x y }
{
    if x == 1 {
        if y == 1 {
            return Some(Consequence::BothViolated);
        }
        return if y == 2 {
            Some(Consequence::RightFalse)
        } else {
            None
        };
    }
    if x == 2 {
        return if y == 1 {
            Some(Consequence::LeftFalse)
        } else {
            None
        };
    }
    None
}

// A clause is violated.
fn violated(s: State, why: u32) -> State
    ensures { result ≡ G.violated s why }
{
    State { clash: why, ..s }
}

// What is implied of gate g becomes true, by the clause that implies it, or the violated clause is noted.
fn apply(work: &mut [u32], net: Netlist, s: State, g: u32, what: Consequence) -> State
    requires { g < 1073741823 }
    ensures { T.Left work.new result (G.applied work.old net s g what) }
{
    match what {
        Consequence::LeftViolated => violated(s, 4 * g),
        Consequence::RightViolated => violated(s, 4 * g + 1),
        Consequence::BothViolated => violated(s, 4 * g + 2),
        Consequence::LeftTrue => {
            let l = field(work, net.nodes, g, 0);
            assign(work, net, s, l, 4 * g)
        }
        Consequence::RightTrue => {
            let l = field(work, net.nodes, g, 1);
            assign(work, net, s, l, 4 * g + 1)
        }
        Consequence::RightFalse => {
            let l = opposite(field(work, net.nodes, g, 1));
            assign(work, net, s, l, 4 * g + 2)
        }
        Consequence::LeftFalse => {
            let l = opposite(field(work, net.nodes, g, 0));
            assign(work, net, s, l, 4 * g + 2)
        }
        Consequence::FalseByLeft => assign(work, net, s, 2 * g + 1, 4 * g),
        Consequence::FalseByRight => assign(work, net, s, 2 * g + 1, 4 * g + 1),
        Consequence::True => assign(work, net, s, 2 * g, 4 * g + 2),
    }
}

// The value of literal l, where the words have room for all records.
fn held_value(work: &[u32], nodes: u32, l: u32) -> u32
    requires { 14 * nodes ≤ length work.now }
    ensures { result ≡ T.value work.now nodes l }
{
    let v = l / 2;
    if nodes <= v {
        return l % 2;
    }
    let x = work[14 * (v as usize) + 5];
    if 1 < x { 2 } else { (x + l % 2) % 2 }
}

// What the values of gate g and of its operands imply, with every word tested.
fn tested_rule(work: &[u32], nodes: u32, g: u32) -> Option<Consequence>
    ensures { result ≡ G.gate_rule work.now nodes g }
{
    if 1073741823 <= g {
        return None;
    }
    let a = field(work, nodes, g, 0);
    let b = field(work, nodes, g, 1);
    let o = value(work, nodes, 2 * g);
    let x = value(work, nodes, a);
    let y = value(work, nodes, b);
    rule(o, x, y)
}

// What the values of gate g and of its operands imply. Of a gate that is false like its left operand, nothing more is read.
fn gate_rule(work: &[u32], nodes: u32, g: u32) -> Option<Consequence>
    ensures { result ≡ G.gate_rule work.now nodes g }
{
    if work.len() < 14 * (nodes as usize) {
        return tested_rule(work, nodes, g);
    }
    if nodes <= g {
        return tested_rule(work, nodes, g);
    }
    if 1073741823 <= g {
        return None;
    }
    let i = 14 * (g as usize);
    let o = work[i + 5];
    let x = held_value(work, nodes, work[i]);
    if o == 0 {
        if x == 0 {
            return None;
        }
    }
    let y = held_value(work, nodes, work[i + 1]);
    rule(o, x, y)
}

// Looks at gate g and its operands.
pub fn look(work: &mut [u32], net: Netlist, s: State, g: u32) -> State
    ensures { T.Left work.new result (G.looked work.old net s g) }
{
    match gate_rule(work, net.nodes, g) {
        Some(r) => apply(work, net, s, g, r),
        None => s,
    }
}

// The fan-out after e, or 0.
fn next_fan(work: &[u32], nodes: u32, e: u32) -> u32
    ensures { result ≡ G.next_fan work.now nodes e }
{
    if e % 2 == 0 {
        field(work, nodes, e / 2, 12)
    } else {
        field(work, nodes, e / 2, 13)
    }
}

// Looks at the gates of fan-out e and those after it, n of them at most.
pub fn look_up(work: &mut [u32], net: Netlist, s: State, e: u32, n: u32) -> State
    ensures { T.Left work.new result (G.looked_up work.old net s e n) }
{
    let mut t = s;
    let mut at = e;
    for _ in 0..n {
        if at == 0 {
            return t;
        }
        if t.clash != UNDEF {
            return t;
        }
        let next = next_fan(work, net.nodes, at);
        if let Some(r) = gate_rule(work, net.nodes, at / 2) {
            t = apply(work, net, t, at / 2, r);
        }
        at = next;
    }
    t
}
