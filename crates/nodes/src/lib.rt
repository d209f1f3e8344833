// Graphs of folded frames: nodes, edges, and the record of a node in working memory.
#![tactic(auto)]

ghost use Rattle.std.specs.Prelude.{◌≡◌, eqb};
ghost use Rattle.nodes.specs.Edges.{word_edge, edge_word, opposite};

use literals::Node;

// Words of a node's record, of which the first is the left operand. The right operand.
pub const RIGHT: usize = 1;

// The signature, in two words.
pub const SIGNATURE: usize = 2;

// One more than the node before it in its bucket by operands; 0 for none.
pub const PAIR_BEFORE: usize = 4;

// One more than the node before it in its bucket by signature; 0 for none.
pub const SIGNATURE_BEFORE: usize = 5;

// One more than the last node of the bucket by operands that has the record's number; 0 for none.
pub const PAIR_LAST: usize = 6;

// The same of the bucket by signature.
pub const SIGNATURE_LAST: usize = 7;

// The values of a simulation, in two words.
pub const VALUES: usize = 8;

// The mark of a cone.
pub const MARK: usize = 10;

// The number in the circuit that is written, which takes the mark's word when marks are no longer needed.
pub const NUMBER: usize = 10;

// The candidate that has the record's number.
pub const CANDIDATE: usize = 11;

// How many free bits a graph has, how many nodes it has now, and for how many there is room.
#[derive(Clone, Copy)]
pub struct Graph {
    pub free: usize,
    pub nodes: usize,
    pub room: usize,
}

// A node, or its complement. The word of an edge of a graph has 32 bits; that of another edge may have 33.
#[derive(Clone, Copy, PartialEq, Eq)]
pub struct Edge(pub Node, pub bool);

impl Edge {
    // Word 2k is node k and 2k + 1 its complement.
    pub fn from_word(w: u32) -> Edge
        ensures { result ≡ word_edge w }
    {
        Edge(Node(w / 2), w % 2 == 1)
    }

    pub fn word(self) -> u64
        ensures { result ≡ edge_word self }
    {
        let k = u64::from(self.0.0);
        if self.1 { 2 * k + 1 } else { 2 * k }
    }

    pub fn node(self) -> Node
        ensures { result ≡ self.0 }
    {
        self.0
    }

    pub fn is_complement(self) -> bool
        ensures { result ≡ self.1 }
    {
        self.1
    }

    pub fn equals(self, e: Edge) -> bool
        ensures { result ≡ eqb (edge_word self) (edge_word e) }
    {
        self == e
    }

    pub fn complement(self) -> Edge
        ensures { result ≡ opposite self }
    {
        let k = self.0;
        Edge(k, !self.1)
    }
}
