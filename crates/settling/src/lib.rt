// The consequences of the entries of the trail, through gates and kept clauses; and literals of level 0, which are fixed where all
// other literals of their reasons are false in every hit.
#![tactic(auto)]

ghost use Rattle.std.specs.Prelude.{◌≡◌, ◌-◌};
ghost use Rattle.trail.specs.Trail as T;
ghost use Rattle.settling.specs.Settling as S;

use kept::settle;
use memory::{Arena, FACT, Netlist, REASON, TRAIL, UNDEF, field, opposite, successor};
use propagation::{look, look_up};
use resolve::start;
use trail::State;
use watches::visit;

// The consequences of literal l through gates.
fn through_gates(work: &mut [u32], net: Netlist, s: State, l: u32) -> State
    ensures { T.Left work.new result (S.through_gates work.old net s l) }
{
    let t = look(work, net, s, l / 2);
    let e = field(work, net.nodes, l / 2, FACT) / 16;
    look_up(work, net, t, e, net.nodes)
}

// The consequences of literal l, through gates and then, if no clause is violated, through kept clauses.
fn through(work: &mut [u32], net: Netlist, arena: Arena, s: State, l: u32) -> State
    ensures { T.Left work.new result (S.through work.old net arena s l) }
{
    let t = through_gates(work, net, s, l);
    if t.clash != UNDEF {
        return t;
    }
    visit(work, net, arena, t, opposite(l))
}

// The consequences of the first entry of the trail whose consequences are not known.
fn follow(work: &mut [u32], net: Netlist, arena: Arena, s: State) -> State
    ensures { T.Left work.new result (S.followed work.old net arena s) }
{
    let l = field(work, net.nodes, s.next, TRAIL);
    let t = State {
        next: successor(s.next),
        ..s
    };
    through(work, net, arena, t, l)
}

// The consequences of all entries, n of them at most, until a clause is violated.
pub fn propagate(work: &mut [u32], net: Netlist, arena: Arena, s: State, n: u32) -> State
    ensures { T.Left work.new result (S.propagated work.old net arena s n) }
{
    let mut t = s;
    for _ in 0..n {
        if t.length <= t.next {
            return t;
        }
        if t.clash != UNDEF {
            return t;
        }
        t = follow(work, net, arena, t);
    }
    t
}

// Fixes the literal of the reason of entry t of the trail, if the others are false in every hit.
fn settle_one(work: &mut [u32], net: Netlist, arena: Arena, t: u32)
    ensures { work.new ≡ S.settled_one work.old net arena t }
{
    let l = field(work, net.nodes, t, TRAIL);
    let why = field(work, net.nodes, l / 2, REASON);
    let d = start(work, net, arena, why);
    settle(work, net, arena, d);
}

// The same of the entries from place `from` on, of n.
pub fn settle_all(work: &mut [u32], net: Netlist, arena: Arena, from: u32, n: u32)
    ensures { work.new ≡ S.settled_from work.old net arena from (n - from) }
{
    for t in from..n {
        settle_one(work, net, arena, t);
    }
}
