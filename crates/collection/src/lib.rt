// Keeps the nodes that the roots need, in the same words: marks them from the last node down, moves them to the front in their order, gives
// the roots the new numbers, and makes the hash lists anew with an empty cache. A node's word for its hash list holds its mark, and then
// its new number.
#![tactic(auto)]

ghost use Rattle.std.specs.Prelude.{◌≡◌, List, map, ℕ, ◌+◌, ◌≤◌, ◌<◌, length, get_or, set};
ghost use Rattle.diagrams.specs.Words as W;
ghost use Rattle.diagrams.specs.States as S;
ghost use Rattle.collection.specs.Collecting as C;
ghost use Rattle.collection.specs.Zeros as Z;

use diagrams::Full;

// Writes node k.
fn store(w: &mut [u32], k: u32, n: diagrams::Vertex)
    requires { length (S.state_of w.old).nodes ≤ (S.state_of w.old).room }
    ensures { S.state_of w.new ≡ C.with_nodes (S.state_of w.old) (set (S.state_of w.old).nodes k n) }
{
    if k < diagrams::room(w.len()) {
        let at = 4 * (w.len() / 16 + (k as usize)) + 4;
        w[at] = n.lo;
        w[at + 1] = n.hi;
        w[at + 2] = n.var;
        w[at + 3] = n.next;
    }
}

// Writes the last word of node k.
fn link(w: &mut [u32], k: u32, x: u32)
    requires { length (S.state_of w.old).nodes ≤ (S.state_of w.old).room }
    ensures { S.state_of w.new
        ≡ C.with_nodes (S.state_of w.old) (C.linked_in (S.state_of w.old).nodes k x) }
{
    let n = diagrams::read(w, k);
    store(
        w,
        k,
        diagrams::Vertex {
            lo: n.lo,
            hi: n.hi,
            var: n.var,
            next: x,
        },
    );
}

// Takes all marks away.
fn unmark(w: &mut [u32])
    requires { length (S.state_of w.old).nodes ≤ (S.state_of w.old).room }
    ensures { S.state_of w.new ≡ C.with_nodes (S.state_of w.old)
        (C.unmarked_in (length (S.state_of w.old).nodes) (S.state_of w.old).nodes) }
{
    let n = diagrams::get(w, 0);
    for i in 0..n {
        link(w, i, 0);
    }
}

// Marks the nodes of the roots.
fn mark_roots(w: &mut [u32], roots: &[u32])
    requires { length (S.state_of w.old).nodes ≤ (S.state_of w.old).room }
    ensures { S.state_of w.new ≡ C.with_nodes (S.state_of w.old)
        (C.rooted_in roots.now (length roots.now) (S.state_of w.old).nodes) }
{
    for root in roots {
        link(w, *root / 2, 1);
    }
}

// Marks the two nodes under node n, where it is marked.
fn mark_edges(w: &mut [u32], n: u32)
    requires { length (S.state_of w.old).nodes ≤ (S.state_of w.old).room }
    ensures { S.state_of w.new
        ≡ C.with_nodes (S.state_of w.old) (C.edges_marked (S.state_of w.old).nodes n) }
{
    let p = diagrams::read(w, n);
    if p.next != 0 {
        link(w, p.lo / 2, 1);
        link(w, p.hi / 2, 1);
    }
}

// The same for all nodes but node 0, from the last one down.
fn sweep(w: &mut [u32], last: u32)
    requires { length (S.state_of w.old).nodes ≤ (S.state_of w.old).room }
    ensures { S.state_of w.new
        ≡ C.with_nodes (S.state_of w.old) (C.swept_in last last (S.state_of w.old).nodes) }
{
    for j in 0..last {
        mark_edges(w, last - j);
    }
}

// Marks all nodes that the roots need.
fn mark(w: &mut [u32], roots: &[u32])
    requires { (length (S.state_of w.old).nodes ≤ (S.state_of w.old).room) × (0 < length (S.state_of w.old).nodes) }
    ensures { S.state_of w.new ≡ C.with_nodes (S.state_of w.old)
        (C.marked_in roots.now (S.state_of w.old).nodes) }
{
    let n = diagrams::get(w, 0);
    unmark(w);
    mark_roots(w, roots);
    sweep(w, n - 1);
    link(w, 0, 0);
}

// An edge by the new number of its node.
fn renamed(w: &[u32], e: u32) -> u32
    ensures { result ≡ C.renamed_in (S.state_of w.now).nodes e }
{
    let n = diagrams::read(w, e / 2);
    diagrams::flip(diagrams::edge_to(n.next), e)
}

// Moves node n to number k.
fn move_node(w: &mut [u32], n: u32, k: u32)
    requires { length (S.state_of w.old).nodes ≤ (S.state_of w.old).room }
    ensures { S.state_of w.new
        ≡ C.with_nodes (S.state_of w.old) (C.moved_in (S.state_of w.old).nodes n k) }
{
    let p = diagrams::read(w, n);
    let q = diagrams::read(w, k);
    let lo = renamed(w, p.lo);
    let hi = renamed(w, p.hi);
    store(
        w,
        k,
        diagrams::Vertex {
            lo,
            hi,
            var: p.var,
            next: q.next,
        },
    );
    link(w, n, k);
}

// Moves node n to number k, where it is marked. Answers the next number.
fn pack_one(w: &mut [u32], n: u32, k: u32) -> u32
    requires { (length (S.state_of w.old).nodes ≤ (S.state_of w.old).room) × (k < 4294967295) }
    ensures { (S.state_of w.new
        ≡ C.with_nodes (S.state_of w.old) (C.packed_one (C.packed (S.state_of w.old).nodes k) n).nodes)
        × (result ≡ (C.packed_one (C.packed (S.state_of w.old).nodes k) n).count) }
{
    let p = diagrams::read(w, n);
    if p.next == 0 {
        return k;
    }
    move_node(w, n, k);
    k + 1
}

// Moves the marked nodes from 1 to last to the front, in their order. Answers how many nodes there are then, with node 0.
fn pack(w: &mut [u32], last: u32) -> u32
    requires { (length (S.state_of w.old).nodes ≤ (S.state_of w.old).room) × (last < 4294967295) }
    ensures { (S.state_of w.new
        ≡ C.with_nodes (S.state_of w.old) (C.packed_in last (S.state_of w.old).nodes).nodes)
        × (result ≡ (C.packed_in last (S.state_of w.old).nodes).count) }
{
    let mut k = 1;
    for j in 0..last {
        k = pack_one(w, j + 1, k);
    }
    k
}

// Gives the roots their new numbers.
fn rename(w: &[u32], roots: &mut [u32])
    ensures { roots.new ≡ map (C.renamed_in (S.state_of w.now).nodes) roots.old }
{
    for at in 0..roots.len() {
        roots[at] = renamed(w, roots[at]);
    }
}

// Stores 0 from `from` on, before `to`.
fn zero(w: &mut [u32], from: usize, to: usize)
    requires { (from ≤ to) × (to ≤ length w.old) }
    ensures { Z.Zeroed w.old w.new from to }
{
    for i in from..to {
        w[i] = 0;
    }
}

// Keeps the first k nodes, and empties the hash lists and the cache.
fn trim(w: &mut [u32], k: u32)
    requires { (k ≤ length (S.state_of w.old).nodes) × (length (S.state_of w.old).nodes ≤ (S.state_of w.old).room) × (0 < k) }
    ensures { S.state_of w.new ≡ C.trimmed (S.state_of w.old) k }
{
    let n = w.len();
    let heads = n - n / 16;
    let cache = 4 * (n / 16) + 4;
    diagrams::put(w, 0, k);
    zero(w, 4, cache);
    zero(w, heads, n);
}

// Puts node n in its hash list.
fn hash(w: &mut [u32], n: u32)
    requires { length (S.state_of w.old).nodes ≤ (S.state_of w.old).room }
    ensures { S.state_of w.new ≡ C.hashed (S.state_of w.old) n }
{
    let p = diagrams::read(w, n);
    let h = diagrams::bucket(w.len() / 16, p.lo, p.hi, p.var);
    let at = w.len() - w.len() / 16 + h;
    let next = diagrams::head(w, h);
    link(w, n, next);
    diagrams::put(w, at, n);
}

// The same for the nodes from 1 to last.
fn rehash(w: &mut [u32], last: u32)
    requires { (length (S.state_of w.old).nodes ≤ (S.state_of w.old).room) × (last < 4294967295) }
    ensures { S.state_of w.new ≡ C.rehashed last (S.state_of w.old) }
{
    for j in 0..last {
        hash(w, j + 1);
    }
}

fn gather(w: &mut [u32], roots: &mut [u32]) -> Result<(), Full>
    requires { (length (S.state_of w.old).nodes ≤ (S.state_of w.old).room) × (0 < length (S.state_of w.old).nodes) }
    ensures { C.collection (S.state_of w.new) roots.new (C.is_kept result)
        ≡ C.gathered (S.state_of w.old) roots.old }
{
    let n = diagrams::get(w, 0);
    mark(w, roots);
    let k = pack(w, n - 1);
    rename(w, roots);
    trim(w, k);
    rehash(w, k - 1);
    if diagrams::pay(w, k / 2) {
        return Ok(());
    }
    Err(Full)
}

// Keeps the nodes that the roots need, for a quarter of a look for each node and half a look for each that is kept.
pub fn collect(w: &mut [u32], roots: &mut [u32]) -> Result<(), Full>
    ensures { C.collection (S.state_of w.new) roots.new (C.is_kept result)
        ≡ C.collected (S.state_of w.old) roots.old }
{
    let n = diagrams::get(w, 0);
    if n == 0 {
        return Err(Full);
    }
    if diagrams::room(w.len()) < n {
        return Err(Full);
    }
    if diagrams::pay(w, n / 4) {
        return gather(w, roots);
    }
    Err(Full)
}
