// The first sequence that makes an edge of a graph true, by a search that learns from conflicts.
#![tactic(auto)]

ghost use Rattle.std.specs.Prelude.{◌≡◌, ◌≤◌};
ghost use Rattle.nodes.specs.Store.{pairs_of};
ghost use Rattle.nodes.specs.Edges.{edge_word};
ghost use Rattle.netlist.specs.Netlist.{Marked};
ghost use Rattle.solver.specs.Solved as S;

use conflicts::Verdict;
use memory::{FACT, field, put};
use nodes::{Edge, Graph};

// The floor's bit at node v.
fn floor_bit(work: &[u32], nodes: u32, v: u32) -> u32
    ensures { result ≡ S.floor_bit work.now nodes v }
{
    if field(work, nodes, v, FACT) / 4 % 4 == 1 {
        1
    } else {
        0
    }
}

// Puts the floor's bits of nodes 1 to n at the front.
pub fn put_bits(work: &mut [u32], nodes: u32, n: u32)
    requires { n ≤ 65536 }
    ensures { work.new ≡ S.bits_put work.old nodes 0 n }
{
    let mut j = 0;
    while j < n {
        let b = floor_bit(work, nodes, j + 1);
        put(work, j as usize, b);
        j += 1;
    }
}

// The first sequence that makes the root true, if the effort is enough: its free bits are left at the front of the words then. Else
// those of a sequence before which none makes the root true.
pub fn first_hit(work: &mut [u32], g: Graph, root: Edge, effort: u64) -> Verdict
    requires { Marked work.old g (edge_word root) }
    ensures { S.SolvedIs g.free (pairs_of work.old g) (edge_word root) work.old effort work.new result }
{
    let net = netlist::build(work, g, root);
    let said = conflicts::run(work, net, effort);
    put_bits(work, net.nodes, net.free);
    said
}
