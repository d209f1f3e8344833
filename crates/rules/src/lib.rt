// The rules by which the conjunction of two edges is an edge that is there already.
#![tactic(auto)]

ghost use Rattle.std.specs.Prelude.{◌≡◌};
ghost use Rattle.nodes.specs.Store.{pairs_of};
ghost use Rattle.nodes.specs.Edges.{edge_word};
ghost use Rattle.aiger.specs.Fold.{among};
ghost use Rattle.rules.specs.Rules.{known, Asked, basic, lowered, simplified, below};

use literals::Node;
use nodes::{Edge, Graph, RIGHT};

// The rules for a constant operand, and for equal and opposite operands; None where there is none, as below. The larger operand is the left one.
fn basic_rule(left: Edge, right: Edge) -> Option<Edge>
    ensures { known result ≡ basic (edge_word left) (edge_word right) }
{
    let falsity = Edge(Node(0), false);
    if right.equals(falsity) {
        return Some(falsity);
    }
    if right.equals(falsity.complement()) {
        return Some(left);
    }
    if left.equals(right) {
        return Some(left);
    }
    if left.0.0 == right.0.0 {
        return Some(falsity);
    }
    None
}

// Whether e is one of two operands.
fn is_among(first: Edge, second: Edge, e: Edge) -> bool
    ensures { result ≡ among (edge_word first) (edge_word second) (edge_word e) }
{
    e.equals(first) | e.equals(second)
}

// The rules one gate down, where left is the edge of a gate that has these operands, or its complement.
fn lower_rule(first: Edge, second: Edge, left: Edge, right: Edge) -> Option<Edge>
    ensures { known result ≡ lowered (record { left = edge_word first; right = edge_word second }) (edge_word left) (edge_word right) }
{
    if is_among(first, second, right.complement()) {
        if left.is_complement() {
            return Some(right);
        }
        return Some(Edge(Node(0), false));
    }
    if left.is_complement() {
        return None;
    }
    if is_among(first, second, right) {
        return Some(left);
    }
    None
}

// The rule one gate down: the graph is asked for the operands of the gate that left is, if it is one.
fn rule_below(work: &[u32], g: Graph, left: Edge, right: Edge) -> Option<Edge>
    requires { Asked work.now g (edge_word left) }
    ensures { known result ≡ below g.free (pairs_of work.now g) (edge_word left) (edge_word right) }
{
    let k = left.0.0 as usize;
    if k <= g.free {
        return None;
    }
    let first = Edge::from_word(work[16 * k]);
    let second = Edge::from_word(work[16 * k + RIGHT]);
    lower_rule(first, second, left, right)
}

// All rules for two operands, of which the left one is the larger.
#[tactic(auto, unfolding(crate::specs::Rules::simplified))]
pub fn simplify(work: &[u32], g: Graph, left: Edge, right: Edge) -> Option<Edge>
    requires { Asked work.now g (edge_word left) }
    ensures { known result ≡ simplified g.free (pairs_of work.now g) (edge_word left) (edge_word right) }
{
    basic_rule(left, right).or_else(|| rule_below(work, g, left, right))
}
