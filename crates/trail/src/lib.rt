// The trail of a conflict search: values with their levels and reasons, in the order in which they came. Nothing is claimed of it.
#![tactic(auto)]

ghost use Rattle.std.specs.Prelude.{◌≡◌};
ghost use Rattle.memory.specs.Record.{Told};
ghost use Rattle.trail.specs.Trail as S;

use memory::{LEVEL, Netlist, REASON, TRAIL, UNDEF, VAL, field, set_field};

// Where a search stands: the length of its trail, the first entry whose consequences are not known yet, the level of decisions, the
// work done so far, the violated clause as a reason or UNDEF, and, while clauses that watch a literal are visited, the clause and
// what led to it.
#[derive(Clone, Copy)]
pub struct State {
    pub length: u32,
    pub next: u32,
    pub level: u32,
    pub ticks: u32,
    pub clash: u32,
    pub clause: u32,
    pub link: u32,
}

// The value of literal l: 0, 1, or 2 where it has none.
pub fn value(work: &[u32], nodes: u32, l: u32) -> u32
    ensures { result ≡ S.value work.now nodes l }
{
    let x = field(work, nodes, l / 2, VAL);
    if 1 < x {
        return 2;
    }
    if l % 2 == 0 { x } else { 1 - x }
}

// Writes the value of literal l's node, its level and its reason.
fn set_node(work: &mut [u32], nodes: u32, l: u32, level: u32, why: u32)
    ensures { work.new ≡ S.noted work.old nodes l level why }
{
    set_field(work, nodes, l / 2, VAL, 1 - l % 2);
    set_field(work, nodes, l / 2, LEVEL, level);
    set_field(work, nodes, l / 2, REASON, why);
}

// Literal l becomes true at this level, for this reason.
pub fn assign(work: &mut [u32], net: Netlist, s: State, l: u32, why: u32) -> State
    ensures { S.Left work.new result (S.assigned work.old net s l why) }
{
    if net.nodes <= s.length {
        return s;
    }
    set_node(work, net.nodes, l, s.level, why);
    set_field(work, net.nodes, s.length, TRAIL, l);
    State {
        length: s.length + 1,
        ..s
    }
}

// Literal l becomes true by decision, at the next level.
pub fn decide(work: &mut [u32], net: Netlist, s: State, l: u32) -> State
    ensures { S.Left work.new result (S.decided work.old net s l) }
{
    if net.nodes <= s.level {
        return s;
    }
    let t = State {
        level: s.level + 1,
        ..s
    };
    assign(work, net, t, l, UNDEF)
}

// Takes back values of levels above `to`, of at most the first n entries of the trail. How many entries are left.
fn take_back(work: &mut [u32], nodes: u32, n: u32, to: u32) -> u32
    ensures { Told work.new result (S.taken_back work.old nodes to n) }
{
    for t in (0..n).rev() {
        let v = field(work, nodes, t, TRAIL) / 2;
        if field(work, nodes, v, LEVEL) <= to {
            return t + 1;
        }
        set_field(work, nodes, v, VAL, 2);
    }
    0
}

// Back to level `to`.
pub fn backtrack(work: &mut [u32], net: Netlist, s: State, to: u32) -> State
    ensures { S.Left work.new result (S.backtracked work.old net s to) }
{
    let n = take_back(work, net.nodes, s.length, to);
    State {
        length: n,
        next: s.next.min(n),
        level: s.level.min(to),
        clash: UNDEF,
        ..s
    }
}
