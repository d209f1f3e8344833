// The first sequence at or after a place that makes an edge of a graph true, by a search that learns from conflicts and begins with its
// floor at the place.
#![tactic(auto)]

ghost use Rattle.std.specs.Prelude.{◌≡◌, ◌^◌, ◌≤◌, ◌<◌};
ghost use Rattle.nodes.specs.Store.{pairs_of};
ghost use Rattle.nodes.specs.Edges.{edge_word};
ghost use Rattle.netlist.specs.Netlist.{Marked};
ghost use Rattle.place_solver.specs.From as S;

use conflicts::Verdict;
use memory::{FACT, field, set_field};
use nodes::{Edge, Graph};

// Word FACT with this digit as the bit of the floor.
fn with_digit(fact: u32, digit: u32) -> u32
    requires { digit ≤ 1 }
    ensures { result ≡ S.with_digit fact digit }
{
    fact / 16 * 16 + fact % 4 + 4 * digit
}

// The floor's bit of node v becomes the digit. Where the hit does not depend on it the node becomes idle.
fn start_bit(work: &mut [u32], nodes: u32, v: u32, digit: u32)
    requires { digit ≤ 1 }
    ensures { work.new ≡ S.started_bit work.old nodes v digit }
{
    let fact = field(work, nodes, v, FACT);
    let new = with_digit(fact, digit);
    set_field(work, nodes, v, FACT, new);
    if fact / 4 % 4 == 2 {
        set_field(work, nodes, v, 1, 1);
    }
}

// The floor becomes the place, of n free bits.
fn start_bits(work: &mut [u32], nodes: u32, n: u32, place: u64)
    requires { n ≤ 65536 }
    ensures { work.new ≡ S.started_bits work.old nodes n place 0 n }
{
    let mut j = 0;
    while j < n {
        let d = places::bit_of(place, (n - (j + 1)) as usize);
        start_bit(work, nodes, j + 1, d);
        j += 1;
    }
}

// The first sequence at or after the place that makes the root true, if the effort is enough: its free bits are left at the front of the
// words then. Else those of a sequence such that none from the place up to it makes the root true.
pub fn first_hit_from(work: &mut [u32], g: Graph, root: Edge, place: u64, effort: u64) -> Verdict
    requires marked { Marked work.old g (edge_word root) }
    requires place_bound { place < 2 ^ g.free }
    ensures { S.SolvedFrom g.free (pairs_of work.old g) (edge_word root) place work.old effort work.new result }
{
    let net = netlist::build(work, g, root);
    start_bits(work, net.nodes, net.free, place);
    let said = conflicts::run(work, net, effort);
    solver::put_bits(work, net.nodes, net.free);
    said
}
