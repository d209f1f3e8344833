// The netlist of a root edge of a graph, for a conflict search: the gates that lead to the root, renumbered upward after the constant
// and all free bits, with their fan-outs, in place of the graph.
#![tactic(auto)]

ghost use Rattle.nodes.specs.Store.{pairs_of};
ghost use Rattle.nodes.specs.Edges.{edge_word};
ghost use Rattle.netlist.specs.Netlist.{Marked, NetlistIs};

use memory::Netlist;
use nodes::{Edge, Graph};
use records::{arrange, renumber, set_leaves};

// Makes the netlist of the root, whose cone is marked. All words are a function of the graph, the root and their number then.
pub fn build(work: &mut [u32], g: Graph, root: Edge) -> Netlist
    requires { Marked work.old g (edge_word root) }
    ensures { NetlistIs g.free (pairs_of work.old g) (edge_word root) work.old work.new result }
{
    let free = g.free as u32;
    let first = free + 1;
    set_leaves(work, first);
    let kept = cone::assign(work, g) as u32;
    let top = renumber(work, root.word() as u32);
    let last = g.nodes as u32;
    arrange(work, first, last, first + kept);
    Netlist {
        nodes: first + kept,
        free: free,
        root: top,
        words: work.len() as u32,
    }
}
