// Kept clauses that watch a literal which has become false: each finds another literal to watch, implies its other watched literal, or
// is violated.
#![tactic(auto)]

ghost use Rattle.std.specs.Prelude.{◌≡◌, ◌<◌};
ghost use Rattle.trail.specs.Trail as T;
ghost use Rattle.watches.specs.Watch as W;

use kept::attach;
use memory::{Arena, Netlist, UNDEF, field, head, set_field, set_head};
use reasons::kept_literal;
use trail::{State, assign, value};

// Which of its two watches clause c has on literal f.
fn side(work: &[u32], words: u32, c: u32, f: u32) -> u8
    ensures { result ≡ W.side work.now words c f }
{
    if head(work, words, c, 5) == f { 1 } else { 0 }
}

// The other literal that clause c watches.
fn partner(work: &[u32], words: u32, c: u32, s: u8) -> u32
    ensures { result ≡ W.partner work.now words c s }
{
    if s == 0 {
        head(work, words, c, 5)
    } else {
        head(work, words, c, 4)
    }
}

// The clause after c in the list of its watch s.
fn following(work: &[u32], words: u32, c: u32, s: u8) -> u32
    ensures { result ≡ W.following work.now words c s }
{
    if s == 0 {
        head(work, words, c, 2)
    } else {
        head(work, words, c, 3)
    }
}

// Whether literal x is not false and not o.
fn can_watch(work: &[u32], nodes: u32, x: u32, o: u32) -> bool
    ensures { result ≡ W.can_watch work.now nodes x o }
{
    if x == o {
        return false;
    }
    1 <= value(work, nodes, x)
}

// A literal of clause c, among its first n, that is not false and not o.
fn find(work: &[u32], net: Netlist, c: u32, o: u32, n: u32) -> Option<u32>
    ensures { result ≡ W.found work.now net c o n }
{
    for i in (0..n).rev() {
        let x = kept_literal(work, net, c, i);
        if can_watch(work, net.nodes, x, o) {
            return Some(x);
        }
    }
    None
}

// The list of literal f goes on with clause x after `from`: clause from / 2 by its watch from % 2, or the list's beginning.
fn link(work: &mut [u32], net: Netlist, arena: Arena, f: u32, from: u32, x: u32)
    ensures { work.new ≡ W.linked work.old net arena f from x }
{
    if from / 2 < arena.count {
        if from % 2 == 0 {
            set_head(work, net.words, from / 2, 2, x);
        } else {
            set_head(work, net.words, from / 2, 3, x);
        }
        return;
    }
    if f % 2 == 0 {
        set_field(work, net.nodes, f / 2, 7, x);
    } else {
        set_field(work, net.nodes, f / 2, 8, x);
    }
}

// On to the clause after this one in the list of its watch s.
fn pass(work: &[u32], words: u32, t: State, s: u8) -> State
    requires { t.clause < 1073741823 }
    ensures { result ≡ W.passed work.now words t s }
{
    let next = following(work, words, t.clause, s);
    State {
        clause: next,
        link: 2 * t.clause + (s % 2) as u32,
        ..t
    }
}

// The clause leaves the list of literal f by its watch s and watches x instead.
fn rewatch(work: &mut [u32], net: Netlist, arena: Arena, t: State, f: u32, s: u8, x: u32) -> State
    requires { s < 2 }
    ensures { T.Left work.new result (W.rewatched work.old net arena t f s x) }
{
    let next = following(work, net.words, t.clause, s);
    link(work, net, arena, f, t.link, next);
    attach(work, net, t.clause, s, x);
    State { clause: next, ..t }
}

// The clause has no other literal to watch: its partner o is implied, or it is violated.
fn close(work: &mut [u32], net: Netlist, t: State, o: u32, s: u8) -> State
    requires { t.clause < 1073741823 }
    ensures { T.Left work.new result (W.closed work.old net t o s) }
{
    if value(work, net.nodes, o) == 0 {
        return State {
            clash: 4 * t.clause + 3,
            clause: UNDEF,
            ..t
        };
    }
    let u = pass(work, net.words, t, s);
    assign(work, net, u, o, 4 * t.clause + 3)
}

// The clause watches literal f, which is false, by its watch s.
fn turn(work: &mut [u32], net: Netlist, arena: Arena, t: State, f: u32, s: u8) -> State
    requires { (t.clause < 1073741823) × (s < 2) }
    ensures { T.Left work.new result (W.turned work.old net arena t f s) }
{
    let o = partner(work, net.words, t.clause, s);
    if value(work, net.nodes, o) == 1 {
        return pass(work, net.words, t, s);
    }
    let n = head(work, net.words, t.clause, 1) % 1048576;
    match find(work, net, t.clause, o, n) {
        Some(x) => rewatch(work, net, arena, t, f, s, x),
        None => close(work, net, t, o, s),
    }
}

// The clause, if there is one and none is violated.
fn step(work: &mut [u32], net: Netlist, arena: Arena, t: State, f: u32) -> State
    ensures { T.Left work.new result (W.stepped work.old net arena t f) }
{
    if arena.count <= t.clause {
        return t;
    }
    if 1073741823 <= t.clause {
        return t;
    }
    if t.clash != UNDEF {
        return t;
    }
    let s = side(work, net.words, t.clause, f);
    turn(work, net, arena, t, f, s)
}

// The clauses that watch literal f from this one on, n of them.
fn walk(work: &mut [u32], net: Netlist, arena: Arena, t: State, f: u32, n: u32) -> State
    ensures { T.Left work.new result (W.walked work.old net arena t f n) }
{
    let mut u = t;
    for _ in 0..n {
        if arena.count <= u.clause {
            return u;
        }
        u = step(work, net, arena, u, f);
    }
    u
}

// The first clause that watches literal f.
fn first(work: &[u32], nodes: u32, f: u32) -> u32
    ensures { result ≡ W.first work.now nodes f }
{
    if f % 2 == 0 {
        field(work, nodes, f / 2, 7)
    } else {
        field(work, nodes, f / 2, 8)
    }
}

// The clauses that watch literal f, which has become false.
pub fn visit(work: &mut [u32], net: Netlist, arena: Arena, t: State, f: u32) -> State
    ensures { T.Left work.new result (W.visited work.old net arena t f) }
{
    let c = first(work, net.nodes, f);
    let u = State {
        clause: c,
        link: UNDEF,
        ..t
    };
    if arena.count <= c {
        return u;
    }
    walk(work, net, arena, u, f, arena.count)
}
