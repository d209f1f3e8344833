// Analysis of a conflict: the working clause is resolved with reasons down the trail. Which entries are taken, and when it ends, only
// guides the search: whatever the trail, the levels and the reasons say, the clause holds in every hit.
#![tactic(auto)]

ghost use Rattle.std.specs.Prelude.{◌≡◌};
ghost use Rattle.resolve.specs.Draft as D;
ghost use Rattle.memory.specs.Record.{Told};
ghost use Rattle.analysis.specs.Analysis as S;

use memory::{
    ACT, Arena, Draft, LEVEL, Netlist, REASON, TRAIL, Trail, field, literal, opposite, set_field,
};
use reasons::is_reason;
use resolve::{is_member, resolve, start};

// A working clause, and how many of its literals are of the level of the conflict.
#[derive(Clone, Copy)]
pub struct Analysis {
    pub length: u32,
    pub whole: bool,
    pub current: u32,
}

// a + b, or the largest word where that is too large for one.
fn sum(a: u32, b: u32) -> u32
    ensures { result ≡ S.sum a b }
{
    a.saturating_add(b)
}

// Raises the activity of node v.
fn touch(work: &mut [u32], nodes: u32, v: u32, step: u32)
    ensures { work.new ≡ S.touched work.old nodes v step }
{
    let act = field(work, nodes, v, ACT);
    set_field(work, nodes, v, ACT, sum(act, step));
}

// n, and one more where node v is of this level.
fn tally(work: &[u32], nodes: u32, v: u32, level: u32, n: u32) -> u32
    ensures { result ≡ S.tallied work.now nodes v level n }
{
    if field(work, nodes, v, LEVEL) == level {
        return sum(n, 1);
    }
    n
}

// Raises the activities of the nodes of the working clause from place `from` on. How many of them are of this level.
fn touch_all(
    work: &mut [u32],
    net: Netlist,
    arena: Arena,
    length: u32,
    from: u32,
    level: u32,
    step: u32,
) -> u32
    ensures { Told work.new result (S.touched_all work.old net arena from level step length 0) }
{
    let mut n = 0;
    for i in (from..length).rev() {
        let v = literal(work, net.nodes, arena.used, i) / 2;
        n = tally(work, net.nodes, v, level, n);
        touch(work, net.nodes, v, step);
    }
    n
}

// Resolves with the reason of literal l, whose complement the working clause has.
fn replace(
    work: &mut [u32],
    net: Netlist,
    arena: Arena,
    a: Analysis,
    l: u32,
    level: u32,
    step: u32,
) -> Analysis
    ensures { S.Left work.new result (S.replaced work.old net arena a l level step) }
{
    let why = field(work, net.nodes, l / 2, REASON);
    let e = resolve(
        work,
        net,
        arena,
        Draft {
            length: a.length,
            whole: a.whole,
        },
        why,
        l,
    );
    let n = touch_all(
        work,
        net,
        arena,
        e.length,
        a.length.saturating_sub(1),
        level,
        step,
    );
    Analysis {
        length: e.length,
        whole: e.whole,
        current: sum(a.current.saturating_sub(1), n),
    }
}

// The entry at place t of the trail: its literal is resolved away, if the working clause has its complement.
fn visit(
    work: &mut [u32],
    net: Netlist,
    arena: Arena,
    a: Analysis,
    t: u32,
    level: u32,
    step: u32,
) -> Analysis
    ensures { S.Left work.new result (S.visited work.old net arena a t level step) }
{
    let l = field(work, net.nodes, t, TRAIL);
    if is_member(
        work,
        net,
        arena,
        Draft {
            length: a.length,
            whole: a.whole,
        },
        opposite(l),
    ) {
        return replace(work, net, arena, a, l, level, step);
    }
    a
}

// Down the trail from place n, until one literal of the level is left.
fn descend(
    work: &mut [u32],
    net: Netlist,
    arena: Arena,
    a: Analysis,
    n: u32,
    level: u32,
    step: u32,
) -> Analysis
    ensures { S.Left work.new result (S.descended work.old net arena a level step n) }
{
    let mut b = a;
    for t in (0..n).rev() {
        if b.current <= 1 {
            return b;
        }
        b = visit(work, net, arena, b, t, level, step);
    }
    b
}

// From the working clause d to the first unique implication point.
fn follow(work: &mut [u32], net: Netlist, arena: Arena, d: Draft, trail: Trail, step: u32) -> Draft
    ensures { D.Left work.new result (S.followed work.old net arena d trail step) }
{
    let n = touch_all(work, net, arena, d.length, 0, trail.level, step);
    let a = descend(
        work,
        net,
        arena,
        Analysis {
            length: d.length,
            whole: d.whole,
            current: n,
        },
        trail.length,
        trail.level,
        step,
    );
    Draft {
        length: a.length,
        whole: a.whole,
    }
}

// From the violated clause r to the first unique implication point.
pub fn analyse(
    work: &mut [u32],
    net: Netlist,
    arena: Arena,
    trail: Trail,
    r: u32,
    step: u32,
) -> Draft
    ensures { D.Left work.new result (S.analysed work.old net arena trail r step) }
{
    let d = start(work, net, arena, r);
    follow(work, net, arena, d, trail, step)
}

// The entry at place t of the trail, if it has a reason and the working clause its complement.
fn expand(work: &mut [u32], net: Netlist, arena: Arena, d: Draft, t: u32) -> Draft
    ensures { D.Left work.new result (S.expanded work.old net arena d t) }
{
    let l = field(work, net.nodes, t, TRAIL);
    if is_member(work, net, arena, d, opposite(l)) {
        let why = field(work, net.nodes, l / 2, REASON);
        if is_reason(net, arena, why) {
            return resolve(work, net, arena, d, why, l);
        }
    }
    d
}

// Down n entries of the trail.
fn expand_from(work: &mut [u32], net: Netlist, arena: Arena, d: Draft, n: u32) -> Draft
    ensures { D.Left work.new result (S.expanded_from work.old net arena d n) }
{
    let mut e = d;
    for t in (0..n).rev() {
        e = expand(work, net, arena, e, t);
    }
    e
}

// From the reason r, down n entries of the trail, to a clause of decisions.
pub fn expand_all(work: &mut [u32], net: Netlist, arena: Arena, n: u32, r: u32) -> Draft
    ensures { D.Left work.new result (S.expanded_all work.old net arena r n) }
{
    let d = start(work, net, arena, r);
    expand_from(work, net, arena, d, n)
}
