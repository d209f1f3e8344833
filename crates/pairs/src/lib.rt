// Structural hashing: gates in buckets by their operands. A bucket is a chain from its last node to the node before it, and so on.
#![tactic(auto)]

ghost use Rattle.std.specs.Prelude.{◌≡◌, ◌+◌, ◌*◌, ◌<◌, ◌^◌, ◌≤◌, length};
ghost use Rattle.nodes.specs.Store.{field, one_more};
ghost use Rattle.nodes.specs.Edges.{edge_word};
ghost use Rattle.nodes.specs.Last.{last_before};
ghost use Rattle.pairs.specs.Bucket.{bucket_of};
ghost use Rattle.pairs.specs.Answers.{place_of};
ghost use Rattle.pairs.specs.Store.{has_pair, is_pair, Chained, Empty, Started, Room, Appended};

use literals::Node;
use nodes::{Edge, Graph, PAIR_BEFORE, PAIR_LAST, RIGHT};

// The bucket of a pair of operands.
fn bucket(room: usize, left: Edge, right: Edge) -> usize
    requires room_nonzero { (0 < room) × (room ≤ 65536) }
    requires left_bound { (edge_word left < 2 ^ 32) × (edge_word right < 2 ^ 32) }
    ensures { (result ≡ bucket_of room (edge_word left) (edge_word right)) × (result < room) }
{
    let sum = left.word() * 1327217885 + right.word() * 889516853;
    (sum % 4294967296 * (room as u64) / 4294967296) as usize
}

// Word f of the record of node k.
fn word(work: &[u32], k: usize, f: usize) -> usize
    requires { 16 * k + f < length work.now }
    ensures { result ≡ field work.now k f }
{
    work[16 * k + f] as usize
}

// Whether node k has these operands.
#[tactic(auto, unfolding(crate::specs::Store::has_pair))]
fn has_pair(work: &[u32], k: usize, left: Edge, right: Edge) -> bool
    requires { 16 * k + 1 < length work.now }
    ensures { result ≡ has_pair work.now (edge_word left) (edge_word right) k }
{
    (work[16 * k] as u64 == left.word()) & (work[16 * k + RIGHT] as u64 == right.word())
}

// Empties the buckets.
pub fn start_pairs(work: &mut [u32], g: Graph)
    requires { Empty work.old g }
    ensures { Started work.old work.new g }
{
    for h in 0..g.room {
        work[16 * h + PAIR_LAST] = 0;
    }
}

// The gate with these operands, if there is one.
pub fn find_pair(work: &[u32], g: Graph, left: Edge, right: Edge) -> Option<Node>
    requires chained { Chained work.now g }
    requires left_bound { (edge_word left < 2 ^ 32) × (edge_word right < 2 ^ 32) }
    ensures { place_of result ≡ last_before (is_pair work.now g (edge_word left) (edge_word right)) g.nodes }
{
    let room = g.room;
    let h = bucket(room, left, right);
    let mut next = word(work, h, PAIR_LAST);
    // A while: the chain says itself where it ends.
    while 0 < next {
        if has_pair(work, next - 1, left, right) {
            return Some(Node((next - 1) as u32));
        }
        next = word(work, next - 1, PAIR_BEFORE);
    }
    None
}

// Adds a gate with these operands as the last node of the graph and of its bucket.
pub fn append_pair(work: &mut [u32], g: Graph, left: Edge, right: Edge) -> Graph
    requires room { Room work.old g }
    requires left_bound { (edge_word left < 2 ^ 32) × (edge_word right < 2 ^ 32) }
    ensures { (result ≡ one_more g) × Appended work.old work.new g (edge_word left) (edge_word right) }
{
    let k = g.nodes;
    let room = g.room;
    let h = bucket(room, left, right);
    work[16 * k] = left.word() as u32;
    work[16 * k + RIGHT] = right.word() as u32;
    work[16 * k + PAIR_BEFORE] = work[16 * h + PAIR_LAST];
    work[16 * h + PAIR_LAST] = (k + 1) as u32;
    Graph {
        free: g.free,
        nodes: k + 1,
        room,
    }
}
