// Signatures of nodes, and the search for an edge that is equal in function to a conjunction. A signature is a 64-bit word whose bit p is
// the node's value in pattern p.
#![tactic(auto)]

ghost use Rattle.std.specs.Prelude.{◌≡◌, ℕ, ◌+◌, ◌*◌, ◌/◌, ◌^◌, ◌≤◌, ◌<◌, length, get_or};
ghost use Rattle.aiger.specs.Bits.{bit};
ghost use Rattle.aiger.specs.Signature.{PatternWord};
ghost use Rattle.nodes.specs.Graph.{node_of, edge_by};
ghost use Rattle.nodes.specs.Store.{field, pairs_of, Sized};
ghost use Rattle.nodes.specs.Edges.{edge_word};
ghost use Rattle.signatures.specs.Words.{word_at, Put};
ghost use Rattle.signatures.specs.Bucket.{normal as normal_of, halves as halves_of, scrambled, bucket_of};
ghost use Rattle.signatures.specs.Store.{pattern_value, SignatureStore, Linked, Unsigned, Signed, SignedLast};
ghost use Rattle.signatures.specs.Answers.{place_of};
ghost use Rattle.signatures.specs.Twin as Twin;

use literals::Node;
use nodes::{CANDIDATE, Edge, Graph, RIGHT, SIGNATURE, SIGNATURE_BEFORE, SIGNATURE_LAST, VALUES};

// The 64-bit word in words f and f + 1 of record k.
#[tactic(auto, unfolding(crate::specs::Words::word_at))]
fn word_at(work: &[u32], k: usize, f: usize) -> u64
    requires { (16 * k + (f + 1) < length work.now) × (f < 16) }
    ensures { result ≡ word_at work.now k f }
{
    u64::from(work[16 * k + f]) + u64::from(work[16 * k + (f + 1)]) * 4294967296
}

// Stores w in words f and f + 1 of record k.
fn put_word(work: &mut [u32], k: usize, f: usize, w: u64)
    requires { (16 * k + (f + 1) < length work.old) × (f < 16) }
    ensures { Put work.old work.new k f w }
{
    work[16 * k + f] = (w % 4294967296) as u32;
    work[16 * k + (f + 1)] = (w / 4294967296) as u32;
}

// The word of an edge: that of its node in words f and f + 1, or the complement.
fn edge_word(work: &[u32], edge: Edge, f: usize) -> u64
    requires { (16 * node_of (edge_word edge) + (f + 1) < length work.now) × (f < 16) }
    ensures { (p : ℕ) → p < 64 → bit result p ≡ edge_by (λ k. bit (word_at work.now k f) p) (edge_word edge) }
{
    let k = edge.0.0 as usize;
    words::literal_word(word_at(work, k, f), edge.is_complement())
}

// The signature of an edge.
pub fn signature(work: &[u32], edge: Edge) -> u64
    requires { 16 * node_of (edge_word edge) + 3 < length work.now }
    ensures { (g : Graph) → SignatureStore work.now g → node_of (edge_word edge) < g.nodes
        → PatternWord (pattern_value g.free (pairs_of work.now g) (edge_word edge)) result }
{
    edge_word(work, edge, SIGNATURE)
}

// A signature, or its complement where bit 0 is set.
fn normal(s: u64) -> u64
    ensures { result ≡ normal_of s }
{
    if s % 2 == 1 { !s } else { s }
}

// The halves of a normal form, times two factors and added.
fn halves(s: u64) -> u64
    ensures { (result ≡ halves_of s) × (result < 9223372036854775808) }
{
    (s % 4294967296) * 625341585 + (s / 4294967296) * 461845907
}

// A hash of a normal form: the halves of that number, added, times a third factor and divided by 2 to the 20.
fn scramble(s: u64) -> u64
    ensures { result ≡ scrambled s }
{
    let h = halves(s);
    (h % 4294967296 + h / 4294967296) * 1481765933 / 1048576
}

// The bucket of a signature. A signature and its complement have the same bucket.
fn bucket(s: u64, room: usize) -> usize
    requires { 0 < room }
    ensures { (result ≡ bucket_of room s) × (result < room) }
{
    (scramble(normal(s)) % (room as u64)) as usize
}

// Empties the buckets.
fn clear_heads(work: &mut [u32], room: usize)
    requires { 16 * room ≤ length work.old }
    ensures { ((h : ℕ) → h < room → field work.new h 7 ≡ 0) × ((i : ℕ) → ((h : ℕ) → h < room → i ≡ 16 * h + 7 → ⊥)
        → get_or work.new i 0 ≡ get_or work.old i 0) }
{
    for h in 0..room {
        work[16 * h + SIGNATURE_LAST] = 0;
    }
}

// Stores the signature of node k, and makes the node the last one of its bucket.
fn link(work: &mut [u32], room: usize, k: usize, s: u64)
    requires { (k < room) × (room ≤ 65536) × (16 * room ≤ length work.old) }
    ensures { Linked work.old work.new room k s }
{
    let h = bucket(s, room);
    put_word(work, k, SIGNATURE, s);
    work[16 * k + SIGNATURE_BEFORE] = work[16 * h + SIGNATURE_LAST];
    work[16 * h + SIGNATURE_LAST] = (k + 1) as u32;
}

// Gives the constant and the free bits their signatures, and puts them in their buckets.
pub fn start_signatures(work: &mut [u32], g: Graph)
    requires sized { Sized g (length work.old) }
    requires nodes_value { g.nodes ≡ g.free + 1 }
    ensures { Signed work.old work.new g }
{
    let free = g.free;
    let room = g.room;
    clear_heads(work, room);
    link(work, room, 0, 0);
    for j in 0..free {
        let w = words::pattern_word(j as u16);
        link(work, room, j + 1, w);
    }
}

// Gives the last node, a gate, its signature s, and puts it in its bucket.
pub fn append_signature(work: &mut [u32], g: Graph, s: u64)
    requires sized { Sized g (length work.old) }
    requires unsigned { Unsigned work.old g s }
    ensures { SignedLast work.old work.new g s }
{
    let nodes = g.nodes;
    let room = g.room;
    link(work, room, nodes - 1, s)
}

// Gives the constant and the free bits their values in block q of 64 sequences.
fn set_leaves(work: &mut [u32], free: usize, q: u64)
    requires { 16 * free + 16 ≤ length work.old }
    ensures { Twin.LeavesSet work.old work.new free q }
{
    put_word(work, 0, VALUES, 0);
    for j in 0..free {
        let w = words::counting_word(free - (j + 1), q);
        put_word(work, j + 1, VALUES, w);
    }
}

// The values of a gate: the conjunction of those of its operands.
fn eval_gate(work: &mut [u32], k: usize)
    requires { (16 * k + 16 ≤ length work.old) × (node_of (field work.old k 0) < k) × (node_of (field work.old k 1) < k) }
    ensures { Twin.GateSet work.old work.new k }
{
    let left = Edge::from_word(work[16 * k]);
    let right = Edge::from_word(work[16 * k + RIGHT]);
    let w = edge_word(work, left, VALUES) & edge_word(work, right, VALUES);
    put_word(work, k, VALUES, w);
}

// The values of all gates.
fn eval_gates(work: &mut [u32], g: Graph)
    requires { Twin.Simulable work.old g }
    ensures { Twin.Evaluated work.old work.new g }
{
    for k in g.free + 1..g.nodes {
        eval_gate(work, k);
    }
}

// The edge of node k whose signature is s, where t is that of the node.
fn candidate(k: Node, t: u64, s: u64) -> Option<Edge>
    ensures { Twin.Candidate k.0 t s (place_of result) }
{
    if words::first_difference(t, s) == 64 {
        return Some(Edge(k, false));
    }
    if words::first_difference(t, !s) == 64 {
        return Some(Edge(k, true));
    }
    None
}

// Adds an edge to the candidates, if there is one. Answers how many there are.
fn push(work: &mut [u32], count: usize, e: Option<Edge>) -> usize
    requires { (16 * count + 11 < length work.old) × (place_of e ≤ 2 ^ 32) }
    ensures { Twin.Pushed work.old work.new count (λ d. place_of e ≡ d + 1) result }
{
    match e {
        None => count,
        Some(w) => {
            work[16 * count + CANDIDATE] = w.word() as u32;
            count + 1
        }
    }
}

// The candidates: the edges whose signature is s. Answers how many there are.
fn gather(work: &mut [u32], g: Graph, s: u64) -> usize
    requires { Sized g (length work.old) × SignatureStore work.old g }
    ensures { Twin.Gathered work.old work.new g s result }
{
    let room = g.room;
    let h = bucket(s, room);
    let mut count = 0;
    let mut next = work[16 * h + SIGNATURE_LAST];
    // A while: the chain says itself where it ends.
    while 0 < next {
        let k = next - 1;
        let i = k as usize;
        let e = candidate(Node(k), word_at(work, i, SIGNATURE), s);
        count = push(work, count, e);
        next = work[16 * i + SIGNATURE_BEFORE];
    }
    count
}

// Puts edge e after the candidates that are left, if its values are w. Answers how many are left.
fn keep(work: &mut [u32], left: usize, e: Edge, w: u64) -> usize
    requires { (16 * left + 11 < length work.old) × (16 * node_of (edge_word e) + 9 < length work.old) × (edge_word e < 2 ^ 32) }
    ensures { Twin.Pushed work.old work.new left (λ d. (d ≡ edge_word e) × Twin.HasWord work.old 8 w d) result }
{
    if words::first_difference(edge_word(work, e, VALUES), w) < 64 {
        return left;
    }
    work[16 * left + CANDIDATE] = e.word() as u32;
    left + 1
}

// Keeps the candidates whose values are w. Answers how many are left.
fn filter(work: &mut [u32], count: usize, w: u64) -> usize
    requires { Twin.Candidates work.old count (length work.old / 16) }
    ensures { Twin.Sifted work.old work.new (Twin.HasWord work.old 8 w) count result }
{
    let mut left = 0;
    for i in 0..count {
        let e = Edge::from_word(work[16 * i + CANDIDATE]);
        left = keep(work, left, e, w);
    }
    left
}

// Keeps the candidates that have the values of the conjunction of a and b in block q of 64 sequences.
fn check_block(work: &mut [u32], g: Graph, a: Edge, b: Edge, count: usize, q: u64) -> usize
    requires simulable { Twin.Simulable work.old g × Twin.Candidates work.old count g.nodes }
    requires a_bound { (node_of (edge_word a) < g.nodes) × (node_of (edge_word b) < g.nodes) }
    ensures { Twin.CheckedBlock work.old work.new g (edge_word a) (edge_word b) count q result }
{
    let free = g.free;
    set_leaves(work, free, q);
    eval_gates(work, g);
    let both = edge_word(work, a, VALUES) & edge_word(work, b, VALUES);
    filter(work, count, both)
}

// Keeps the candidates that are equal in function to the conjunction of a and b: all sequences are tried, 64 at a time. With six free
// bits or fewer the patterns are all sequences, so that a candidate's signature is enough.
fn check_blocks(work: &mut [u32], g: Graph, a: Edge, b: Edge, count: usize) -> usize
    requires simulable { Twin.Simulable work.old g × Twin.Candidates work.old count g.nodes }
    requires a_bound { (node_of (edge_word a) < g.nodes) × (node_of (edge_word b) < g.nodes) × (g.free ≤ 12) }
    ensures { Twin.Checked work.old work.new g (edge_word a) (edge_word b) count result }
{
    if g.free <= 6 {
        return count;
    }
    let blocks = 1u64 << (g.free - 6);
    let mut left = count;
    for q in 0..blocks {
        if left == 0 {
            return 0;
        }
        left = check_block(work, g, a, b, left, q);
    }
    left
}

// An edge that is equal in function to the conjunction of a and b.
pub fn find_twin(work: &mut [u32], g: Graph, a: Edge, b: Edge) -> Option<Edge>
    requires { Twin.Ready work.old g (edge_word a) (edge_word b) }
    ensures { Twin.Searched work.old work.new g (edge_word a) (edge_word b) (place_of result) }
{
    let s = signature(work, a) & signature(work, b);
    let count = gather(work, g, s);
    let left = check_blocks(work, g, a, b, count);
    if left == 0 {
        return None;
    }
    Some(Edge::from_word(work[CANDIDATE]))
}
