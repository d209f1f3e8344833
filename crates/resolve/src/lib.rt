// The working clause: literals after those of the kept clauses. Word POS of a node's record says where in it a literal of the node stands,
// and is believed only after a look, so that nothing is asked of what memory held before.
#![tactic(auto)]

ghost use Rattle.std.specs.Prelude.{◌≡◌};
ghost use Rattle.resolve.specs.Draft as D;

use memory::{Arena, Draft, Netlist, POS, field, literal, opposite, set_field, set_literal};
use reasons::{is_false, is_reason, length_of, literal_of};

// Whether literal l stands in the working clause, where its node's word says.
pub fn is_member(work: &[u32], net: Netlist, arena: Arena, d: Draft, l: u32) -> bool
    ensures { result ≡ D.is_member work.now net arena d l }
{
    let p = field(work, net.nodes, l / 2, POS);
    if d.length <= p {
        return false;
    }
    literal(work, net.nodes, arena.used, p) == l
}

// Adds literal l at the end, if there is room.
fn append(work: &mut [u32], net: Netlist, arena: Arena, d: Draft, l: u32) -> Draft
    ensures { D.Left work.new result (D.appended work.old net arena d l) }
{
    let taken = 14 * (net.nodes as usize)
        + (arena.used as usize)
        + 6 * (arena.count as usize)
        + (d.length as usize);
    if (net.words as usize) <= taken {
        return Draft { whole: false, ..d };
    }
    set_literal(work, net.nodes, arena.used, d.length, l);
    set_field(work, net.nodes, l / 2, POS, d.length);
    Draft {
        length: d.length + 1,
        ..d
    }
}

// Adds literal l, unless it is there or is false in every hit.
fn include(work: &mut [u32], net: Netlist, arena: Arena, d: Draft, l: u32) -> Draft
    ensures { D.Left work.new result (D.included work.old net arena d l) }
{
    if is_false(work, net.nodes, l) {
        return d;
    }
    if is_member(work, net, arena, d, l) {
        return d;
    }
    append(work, net, arena, d, l)
}

// Takes literal l out; the last literal takes its place.
fn exclude(work: &mut [u32], net: Netlist, arena: Arena, d: Draft, l: u32) -> Draft
    ensures { D.Left work.new result (D.excluded work.old net arena d l) }
{
    let p = field(work, net.nodes, l / 2, POS);
    if d.length <= p {
        return Draft { whole: false, ..d };
    }
    if literal(work, net.nodes, arena.used, p) != l {
        return Draft { whole: false, ..d };
    }
    let x = literal(work, net.nodes, arena.used, d.length - 1);
    set_literal(work, net.nodes, arena.used, p, x);
    set_field(work, net.nodes, x / 2, POS, p);
    Draft {
        length: d.length - 1,
        ..d
    }
}

// Adds literal l unless it is x.
fn join(work: &mut [u32], net: Netlist, arena: Arena, d: Draft, l: u32, x: u32) -> Draft
    ensures { D.Left work.new result (D.joined work.old net arena d l x) }
{
    if l == x {
        return d;
    }
    include(work, net, arena, d, l)
}

// Adds the literals of reason r but x.
fn gather(work: &mut [u32], net: Netlist, arena: Arena, d: Draft, r: u32, x: u32) -> Draft
    ensures { D.Left work.new result (D.gathered work.old net arena d r x (D.length_of work.old net r)) }
{
    let mut e = d;
    let n = length_of(work, net, r);
    for i in (0..n).rev() {
        let l = literal_of(work, net, r, i);
        e = join(work, net, arena, e, l, x);
    }
    e
}

// The working clause becomes that of reason r. Literal 0, which is false, is left out.
pub fn start(work: &mut [u32], net: Netlist, arena: Arena, r: u32) -> Draft
    ensures { D.Left work.new result (D.started work.old net arena r) }
{
    if is_reason(net, arena, r) {
        return gather(
            work,
            net,
            arena,
            Draft {
                length: 0,
                whole: true,
            },
            r,
            0,
        );
    }
    Draft {
        length: 0,
        whole: false,
    }
}

// Resolves the working clause with reason r on literal x, whose complement it has.
pub fn resolve(work: &mut [u32], net: Netlist, arena: Arena, d: Draft, r: u32, x: u32) -> Draft
    ensures { D.Left work.new result (D.resolved work.old net arena d r x) }
{
    if is_reason(net, arena, r) {
        let e = exclude(work, net, arena, d, opposite(x));
        return gather(work, net, arena, e, r, x);
    }
    Draft { whole: false, ..d }
}
