// The cone of an edge: which gates of a graph lead to it, and their numbers in the circuit that is written. Word 10 of a node's record
// is its mark, and then its number.
#![tactic(auto)]

ghost use Rattle.std.specs.Prelude.{◌+◌, ◌*◌, ◌≤◌, ◌<◌, length};
ghost use Rattle.nodes.specs.Store.{Sized};
ghost use Rattle.nodes.specs.Edges.{edge_word};
ghost use Rattle.cone.specs.Store.{Markable, ConeMarked, TopMarked, Passable, Passed, LeavesNumbered, GateNumbered, Assignment};

use literals::Node;
use nodes::{Edge, Graph, MARK, NUMBER, RIGHT};

// Clears the marks, and marks one node.
fn start_marks(work: &mut [u32], g: Graph, top: Node)
    requires sized { Sized g (length work.old) }
    requires top_lt_nodes { top.0 < g.nodes }
    ensures { TopMarked work.old work.new g top.0 }
{
    for k in 0..g.nodes {
        work[16 * k + MARK] = 0;
    }
    let t = top.0 as usize;
    work[16 * t + MARK] = 1;
}

// Marks the nodes of the operands of node k, if it is marked.
fn mark_gate(work: &mut [u32], k: usize)
    requires { Passable work.old k }
    ensures { Passed work.old work.new k }
{
    if work[16 * k + MARK] == 0 {
        return;
    }
    let a = Edge::from_word(work[16 * k]);
    let b = Edge::from_word(work[16 * k + RIGHT]);
    let left = a.0.0 as usize;
    let right = b.0.0 as usize;
    work[16 * left + MARK] = 1;
    work[16 * right + MARK] = 1;
}

// Marks the nodes that lead to the root. Gates are passed from the last one to the first.
pub fn mark(work: &mut [u32], g: Graph, root: Edge)
    requires { Markable work.old g (edge_word root) }
    ensures { ConeMarked work.old work.new g (edge_word root) }
{
    let top = root.0;
    start_marks(work, g, top);
    for k in (g.free + 1..g.nodes).rev() {
        mark_gate(work, k);
    }
}

// Gives the constant and the free bits their own numbers.
fn number_leaves(work: &mut [u32], g: Graph)
    requires { Sized g (length work.old) }
    ensures { LeavesNumbered work.old work.new g }
{
    for k in 0..g.free + 1 {
        work[16 * k + NUMBER] = k as u32;
    }
}

// Gives node k the next number, if it is marked. Answers the number after it.
fn number_gate(work: &mut [u32], k: usize, next: usize) -> usize
    requires { (16 * k + 16 ≤ length work.old) × (next < 65536) }
    ensures { GateNumbered work.old work.new k next result }
{
    let mark = work[16 * k + MARK];
    if mark == 0 {
        return next;
    }
    work[16 * k + NUMBER] = next as u32;
    next + 1
}

// Replaces the marks by numbers. Answers how many gates are marked.
pub fn assign(work: &mut [u32], g: Graph) -> usize
    requires { Sized g (length work.old) }
    ensures { Assignment work.old work.new g result }
{
    number_leaves(work, g);
    let first = g.free + 1;
    let mut next = first;
    for k in first..g.nodes {
        next = number_gate(work, k, next);
    }
    next - first
}
