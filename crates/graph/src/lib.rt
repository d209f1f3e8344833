// Gates of a folded frame: a conjunction is an edge that is there already, or a new gate.
#![tactic(auto)]

ghost use Rattle.std.specs.Prelude.{◌≡◌, ◌≤◌, ◌<◌, length};
ghost use Rattle.nodes.specs.Store.{pairs_of};
ghost use Rattle.nodes.specs.Edges.{edge_word};
ghost use Rattle.graph.specs.Stored.{Stored, empty_graph, Enough, Operands, Conjoined, Proper, New, Twinless};

use literals::Node;
use nodes::{Edge, Graph};

// An edge as its word.
#[derive(Clone, Copy)]
struct Packed(u32);

// A graph, and an edge of it.
#[derive(Clone, Copy)]
pub struct Made {
    pub graph: Graph,
    pub edge: Edge,
}

// A graph over so many free bits, without gates. Of working memory nothing is promised but what the graph stores.
pub fn start(work: &mut [u32], free: usize, room: usize) -> Graph
    requires { Enough free room (length work.old) }
    ensures { (result ≡ empty_graph free room) × Stored work.new result }
{
    let g = Graph {
        free,
        nodes: free + 1,
        room,
    };
    pairs::start_pairs(work, g);
    if 12 < free {
        return g;
    }
    signatures::start_signatures(work, g);
    g
}

// Adds a gate. There are more than twelve free bits, so that signatures are not kept.
fn append_plain(work: &mut [u32], g: Graph, left: Edge, right: Edge) -> Made
    requires new { New work.old g (edge_word left) (edge_word right) }
    requires lt_free { 12 < g.free }
    ensures { Conjoined work.old work.new g (edge_word left) (edge_word right) result }
{
    let k = g.nodes as u32;
    let graph = pairs::append_pair(work, g, left, right);
    Made {
        graph,
        edge: Edge(Node(k), false),
    }
}

// Adds a gate with its signature.
fn append_signed(work: &mut [u32], g: Graph, left: Edge, right: Edge) -> Made
    requires new { New work.old g (edge_word left) (edge_word right) }
    requires free_bound { g.free ≤ 12 }
    requires twinless { Twinless g.free (pairs_of work.old g) (edge_word left) (edge_word right) }
    ensures { Conjoined work.old work.new g (edge_word left) (edge_word right) result }
{
    let k = g.nodes as u32;
    let s = signatures::signature(work, left) & signatures::signature(work, right);
    let graph = pairs::append_pair(work, g, left, right);
    signatures::append_signature(work, graph, s);
    Made {
        graph,
        edge: Edge(Node(k), false),
    }
}

// An edge that is equal in function, or a new gate.
fn merge(work: &mut [u32], g: Graph, left: Edge, right: Edge) -> Made
    requires new { New work.old g (edge_word left) (edge_word right) }
    requires free_bound { g.free ≤ 12 }
    ensures { Conjoined work.old work.new g (edge_word left) (edge_word right) result }
{
    match signatures::find_twin(work, g, left, right) {
        Some(e) => Made { graph: g, edge: e },
        None => append_signed(work, g, left, right),
    }
}

// The gate with these operands, or what is made where there is none.
fn make_gate(work: &mut [u32], g: Graph, left: Edge, right: Edge) -> Made
    requires { Proper work.old g (edge_word left) (edge_word right) }
    ensures { Conjoined work.old work.new g (edge_word left) (edge_word right) result }
{
    match pairs::find_pair(work, g, left, right) {
        Some(k) => Made {
            graph: g,
            edge: Edge(k, false),
        },
        None => {
            if 12 < g.free {
                return append_plain(work, g, left, right);
            }
            merge(work, g, left, right)
        }
    }
}

// The conjunction of two edges, of which left is the larger.
fn make_ordered(work: &mut [u32], g: Graph, left: Edge, right: Edge) -> Made
    requires operands { Operands work.old g (edge_word left) (edge_word right) }
    requires right_bound { edge_word right ≤ edge_word left }
    ensures { Conjoined work.old work.new g (edge_word left) (edge_word right) result }
{
    match rules::simplify(work, g, left, right) {
        Some(e) => Made { graph: g, edge: e },
        None => make_gate(work, g, left, right),
    }
}

// The same of edges as words. It is called for every gate of a frame: a word is passed as one value, an edge as two.
fn make_packed(work: &mut [u32], g: Graph, left: Packed, right: Packed) -> Made
    requires operands { Operands work.old g left.0 right.0 }
    requires right_le_left { right.0 ≤ left.0 }
    ensures { Conjoined work.old work.new g left.0 right.0 result }
{
    make_ordered(work, g, Edge::from_word(left.0), Edge::from_word(right.0))
}

// The conjunction of two edges. Of working memory nothing is promised but what the graph stores.
pub fn make(work: &mut [u32], g: Graph, a: Edge, b: Edge) -> Made
    requires { Operands work.old g (edge_word a) (edge_word b) }
    ensures { Conjoined work.old work.new g (edge_word a) (edge_word b) result }
{
    let p = a.word() as u32;
    let q = b.word() as u32;
    if p < q {
        return make_packed(work, g, Packed(q), Packed(p));
    }
    make_packed(work, g, Packed(p), Packed(q))
}
