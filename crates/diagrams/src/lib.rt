// Decision diagrams in one slice of lent words. An edge is 2 * node + complement; node 0 is false, so edge 0 is false and edge 1 true.
// Where things stand follows from the length alone: word 0 is the number of nodes and word 1 the number of looks that are left; entries of
// the cache from word 4 on, nodes after them, and the heads of the hash lists at the end. A node has four words: the edges to go along
// where its variable is false and where it is true, the variable, and the next node of its hash list, 0 for none. Nothing is asked of the
// words: a word past the end is 0, and a store past it changes nothing.
#![tactic(auto)]

ghost use Rattle.std.specs.Prelude.{◌≡◌, List, ℕ, ◌<◌, ◌/◌, ltb, length, get_or, set, replicate};
ghost use Rattle.diagrams.specs.Words as W;
ghost use Rattle.diagrams.specs.States as S;

#[derive(Clone, Copy)]
pub struct Vertex {
    pub lo: u32,
    pub hi: u32,
    pub var: u32,
    pub next: u32,
}

// No node, no look or no turn is left, or a variable does not stand above those of its edges.
#[derive(Clone, Copy)]
pub struct Full;

// Word i, or 0 past the end.
pub fn get(w: &[u32], i: usize) -> u32
    ensures { result ≡ get_or w.now i 0 }
{
    if i < w.len() { w[i] } else { 0 }
}

// Stores x at i, unless that is past the end.
pub fn put(w: &mut [u32], i: usize, x: u32)
    ensures { w.new ≡ set w.old i x }
{
    if i < w.len() {
        w[i] = x;
    }
}

// The edge e, or its complement where c is odd.
pub fn flip(e: u32, c: u32) -> u32
    ensures { result ≡ W.flip e c }
{
    e ^ c % 2
}

// A place below size for three words; 0 where there is none.
pub fn bucket(size: usize, a: u32, b: u32, c: u32) -> usize
    ensures { (result ≡ W.bucket_of size a b c) × (result < 4294967296) }
{
    let sum = (a as u64) * 1327217885 + (b as u64) * 889516853 + (c as u64) * 1640531527;
    (sum % 4294967296 * ((size as u64) % 4294967296) / 4294967296) as usize
}

// The words of node k, or zeros where there is none.
pub fn read(w: &[u32], k: u32) -> Vertex
    ensures { result ≡ W.node_at (S.state_of w.now).nodes k }
{
    if k < get(w, 0) {
        let at = 4 * (w.len() / 16 + (k as usize)) + 4;
        if at + 3 < w.len() {
            return Vertex {
                lo: w[at],
                hi: w[at + 1],
                var: w[at + 2],
                next: w[at + 3],
            };
        }
    }
    Vertex {
        lo: 0,
        hi: 0,
        var: 0,
        next: 0,
    }
}

// The first node of hash list h, 0 for none.
pub fn head(w: &[u32], h: usize) -> u32
    requires { h < 4294967296 }
    ensures { result ≡ get_or (S.state_of w.now).heads h 0 }
{
    get(w, w.len() - w.len() / 16 + h)
}

// For how many nodes there is room in so many words.
pub fn room(words: usize) -> u32
    ensures { result ≡ W.room_of words }
{
    let free = words - words / 16;
    let used = 4 * (words / 16) + 4;
    if free < used {
        return 0;
    }
    if (free - used) / 4 < 1073741824 {
        return ((free - used) / 4) as u32;
    }
    1073741824
}

// Whether a node is that of a variable and two edges.
fn is_node(n: Vertex, v: u32, lo: u32, hi: u32) -> bool
    ensures { result ≡ W.is_node n v lo hi }
{
    (n.lo == lo) & (n.hi == hi) & (n.var == v)
}

// The node of a variable and two edges on the hash list that begins at `from`, or 0.
fn find(w: &[u32], from: u32, v: u32, lo: u32, hi: u32) -> u32
    ensures { result ≡ S.found (S.state_of w.now).nodes v lo hi (length (S.state_of w.now).nodes) from }
{
    let mut at = from;
    for _ in 0..get(w, 0) {
        if at == 0 {
            return 0;
        }
        let n = read(w, at);
        if is_node(n, v, lo, hi) {
            return at;
        }
        at = n.next;
    }
    0
}

// Whether variable v stands above edge e.
fn is_above(w: &[u32], v: u32, e: u32) -> bool
    ensures { result ≡ S.is_above (S.state_of w.now).nodes v e }
{
    let n = read(w, e / 2);
    v < n.var
}

// Adds a node, the first of hash list h.
fn add(w: &mut [u32], h: usize, v: u32, lo: u32, hi: u32)
    requires { (h < 4294967296) × (get_or w.old 0 0 < W.room_of (length w.old)) }
    ensures { S.state_of w.new ≡ S.added (S.state_of w.old) h v lo hi }
{
    let k = get(w, 0);
    let next = head(w, h);
    let at = 4 * (w.len() / 16 + (k as usize)) + 4;
    let first = w.len() - w.len() / 16 + h;
    w[at] = lo;
    w[at + 1] = hi;
    w[at + 2] = v;
    w[at + 3] = next;
    put(w, first, k);
    put(w, 0, k + 1);
}

// The edge to node k. The remainder only makes the function total: there is no node from 2^30 on.
pub fn edge_to(k: u32) -> u32
    ensures { result ≡ W.edge_to k }
{
    (2 * (k as u64) % 4294967296) as u32
}

// A new node, where there is room and its variable stands above its edges.
fn append(w: &mut [u32], h: usize, v: u32, lo: u32, hi: u32) -> Result<u32, Full>
    requires { h < 4294967296 }
    ensures { S.left w.new result ≡ S.appended (S.state_of w.old) h v lo hi }
{
    let k = get(w, 0);
    if k < room(w.len()) {
        if is_above(w, v, lo) {
            if is_above(w, v, hi) {
                add(w, h, v, lo, hi);
                return Ok(edge_to(k));
            }
        }
    }
    Err(Full)
}

// The node that the hash lists have, or a new one.
fn find_or_append(w: &mut [u32], v: u32, lo: u32, hi: u32) -> Result<u32, Full>
    ensures { S.left w.new result ≡ S.found_or_appended (S.state_of w.old) v lo hi }
{
    let h = bucket(w.len() / 16, lo, hi, v);
    let k = find(w, head(w, h), v, lo, hi);
    if 0 < k {
        return Ok(edge_to(k));
    }
    append(w, h, v, lo, hi)
}

// The edge that is hi where variable v is true and lo where it is false. In a node lo is no complement: that of the result is taken in its
// place.
pub fn node(w: &mut [u32], v: u32, lo: u32, hi: u32) -> Result<u32, Full>
    ensures { S.left w.new result ≡ S.made (S.state_of w.old) v lo hi }
{
    if lo == hi {
        return Ok(lo);
    }
    let e = find_or_append(w, v, flip(lo, lo), flip(hi, lo))?;
    Ok(flip(e, lo))
}

// Takes n of the looks that are left; false where there are fewer, and then takes none.
pub fn pay(w: &mut [u32], n: u32) -> bool
    ensures { (S.state_of w.new ≡ S.paid (S.state_of w.old) n) × (result ≡ S.is_paid (S.state_of w.old) n) }
{
    let looks = get(w, 1);
    if looks < n {
        return false;
    }
    put(w, 1, looks - n);
    true
}

// What the cache has for three operands.
pub fn entry(w: &[u32], f: u32, g: u32, h: u32) -> Option<u32>
    ensures { result ≡ S.entry_of (S.state_of w.now).cache f g h }
{
    let i = bucket(w.len() / 16, f, g, h);
    if i < w.len() / 16 {
        let at = 4 * i + 4;
        if (w[at] == f) & (w[at + 1] == g) & (w[at + 2] == h) {
            return Some(w[at + 3]);
        }
    }
    None
}

// Keeps the result for three operands, in place of what the cache has there.
pub fn keep(w: &mut [u32], f: u32, g: u32, h: u32, r: u32)
    ensures { S.state_of w.new ≡ S.keeping (S.state_of w.old) f g h r }
{
    let i = bucket(w.len() / 16, f, g, h);
    if i < w.len() / 16 {
        let at = 4 * i + 4;
        w[at] = f;
        w[at + 1] = g;
        w[at + 2] = h;
        w[at + 3] = r;
    }
}

// Stores 0 everywhere.
fn clear(w: &mut [u32])
    ensures { w.new ≡ replicate (length w.old) 0 }
{
    w.fill(0);
}

// A diagram with node 0 alone, whose variable is the greatest number, empty hash lists, an empty cache, and so many looks.
pub fn begin(w: &mut [u32], looks: u32)
    ensures { w.new ≡ S.begun (length w.old) looks }
{
    let var = 4 * (w.len() / 16) + 6;
    clear(w);
    put(w, 0, 1);
    put(w, 1, looks);
    put(w, var, 4294967295);
}
