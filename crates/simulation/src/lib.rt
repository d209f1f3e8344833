// Simulation of a graph for 64 places at a time. Words 2 and 3 of a node's record are its values in the places of a block: bit q of word
// 2 + h serves place 32 h + q. Only nodes that lead to the root, whose word 10 is not 0, are evaluated.
#![tactic(auto)]

ghost use Rattle.std.specs.Prelude.{◌≡◌, false, ℕ, ◌+◌, ◌*◌, ◌/◌, ◌^◌, ◌≤◌, ◌<◌, min, T, length, get_or};
ghost use Rattle.aiger.specs.Bits.{bit};
ghost use Rattle.aiger.specs.Frames.{value};
ghost use Rattle.nodes.specs.Store.{pairs_of};
ghost use Rattle.nodes.specs.Edges.{edge_word};
ghost use Rattle.simulation.specs.Store.{
  half,
  Netlist,
  Evaluable,
  HalfEvaluated,
  GateEvaluated,
  GatesEvaluated,
  WordPut,
  LeavesCleared,
  SlotsPut,
  Slotted,
  Taken,
  SlotsFilled,
  Unused,
  UsedFrom,
  Firsts,
  Carried,
  Net,
  SlotsOf,
  Started,
  Scannable,
  Advanced,
  FirstIn,
  InBlock,
  hit_at,
  BitsPut,
};
ghost use Rattle.simulation.specs.Found.{Counted, FoundIs};
ghost use Rattle.support.specs.Counting.{First};

use nodes::{Edge, Graph};

// Half h of the values of an edge.
fn edge_half(work: &[u32], e: u32, h: usize) -> u32
    requires e_in_bounds { 16 * (e / 2) + 16 ≤ length work.now }
    requires h_bound { h < 2 }
    ensures { (q : ℕ) → q < 32 → bit result q ≡ value (half work.now h q) e }
{
    let v = (e / 2) as usize;
    let s = e % 2;
    work[16 * v + (2 + h)] ^ (s * 0xffff_ffff)
}

// Half h of the values of gate k.
fn eval_half(work: &mut [u32], k: usize, h: usize)
    requires evaluable { Evaluable work.old k }
    requires h_bound { h < 2 }
    ensures { HalfEvaluated work.old work.new k h }
{
    let a = work[16 * k];
    let b = work[16 * k + 1];
    let x = edge_half(work, a, h);
    let y = edge_half(work, b, h);
    work[16 * k + (2 + h)] = x & y;
}

// The values of gate k, if it leads to the root.
fn eval_gate(work: &mut [u32], k: usize)
    requires { Evaluable work.old k }
    ensures { GateEvaluated work.old work.new k }
{
    if work[16 * k + 10] == 0 {
        return;
    }
    eval_half(work, k, 0);
    eval_half(work, k, 1);
}

// The values of the gates from node `first` on, where those before have theirs.
fn eval_gates(work: &mut [u32], g: Graph, first: usize)
    requires netlist { Netlist work.old g }
    requires free_bound { g.free + 1 ≤ first }
    ensures { GatesEvaluated work.old work.new g first }
{
    for k in first..g.nodes {
        eval_gate(work, k);
    }
}

// Gives node v its values.
fn put_word(work: &mut [u32], v: usize, word: u64)
    requires { 16 * v + 16 ≤ length work.old }
    ensures { WordPut work.old work.new v word }
{
    work[16 * v + 2] = (word % 4294967296) as u32;
    work[16 * v + 3] = (word / 4294967296) as u32;
}

// Makes the constant and all free bits false.
fn clear_leaves(work: &mut [u32], g: Graph)
    requires { Netlist work.old g }
    ensures { LeavesCleared work.old work.new (g.free + 1) }
{
    for v in 0..g.free + 1 {
        put_word(work, v, 0);
    }
}

// Gives the free bits of slots `from` to `to` - 1 their values in a block: slot k counts as bit k of a place.
fn put_slots(work: &mut [u32], slots: &[u32], from: usize, to: usize, block: u64)
    requires slotted { Slotted (length work.old) slots.now to }
    requires from_le_to { from ≤ to }
    ensures { SlotsPut work.old work.new slots.now from to block }
{
    for k in from..to {
        let v = slots[k] as usize;
        put_word(work, v, words::counting_word(k, block));
    }
}

// Node v takes slot r, if its mark is not 0 and there is such a slot. Answers the next slot.
fn take_slot(slots: &mut [u32], r: usize, v: u32, mark: u32) -> usize
    requires { (r < 65536) × (length slots.old ≡ 32) }
    ensures { Taken slots.old slots.new r v mark result }
{
    if mark == 0 {
        return r;
    }
    if r < 32 {
        slots[r] = v;
        return r + 1;
    }
    r + 1
}

// The free bits at positions `from` to `to` - 1 that lead to the root take slots from r on.
fn fill_slots(work: &[u32], g: Graph, slots: &mut [u32], from: usize, to: usize, r: usize) -> usize
    requires netlist { Netlist work.now g }
    requires from_le_to { (from ≤ to) × (to ≤ g.free) × (r ≤ from) × (length slots.old ≡ 32) }
    ensures { SlotsFilled work.now g slots.old slots.new from to r result }
{
    let free = g.free;
    let mut next = r;
    for i in from..to {
        let v = free - i;
        let mark = work[16 * v + 10];
        next = take_slot(slots, next, v as u32, mark);
    }
    next
}

// Whether node a is a free bit from node `low` on.
fn is_free_from(a: u32, low: u32, free: u32) -> bool
    ensures { result ≡ false → low ≤ a → free < a }
{
    if a < low {
        return false;
    }
    a <= free
}

// Whether node k leads to the root and has a free bit from node `low` on as an operand.
fn uses(work: &[u32], k: usize, low: u32, free: u32) -> bool
    requires { 16 * k + 16 ≤ length work.now }
    ensures { result ≡ false → Unused work.now k low free }
{
    if work[16 * k + 10] == 0 {
        return false;
    }
    if is_free_from(work[16 * k] / 2, low, free) {
        return true;
    }
    is_free_from(work[16 * k + 1] / 2, low, free)
}

// A node up to which no gate uses a free bit from node `low` on.
fn first_use(work: &[u32], g: Graph, low: u32, end: usize) -> usize
    requires netlist { Netlist work.now g }
    requires free_bound { (g.free + 1 ≤ end) × (end ≤ g.nodes) }
    ensures { (result ≤ end) × UsedFrom work.now g low result }
{
    let free = g.free as u32;
    for k in g.free + 1..end {
        if uses(work, k, low, free) {
            return k;
        }
    }
    end
}

// For each slot, a node up to which no gate uses it or an earlier slot.
fn fill_firsts(work: &[u32], g: Graph, slots: &[u32], count: usize, firsts: &mut [u32])
    requires netlist { Netlist work.now g }
    requires count_in_bounds { (count ≤ length slots.now) × (count ≤ length firsts.old) }
    ensures { Firsts work.now g slots.now count firsts.new }
{
    let mut end = g.nodes;
    for k in 0..count {
        end = first_use(work, g, slots[k], end);
        firsts[k] = end as u32;
    }
}

// How many of the lowest bits of the block's number are 1.
fn carry(block: u64) -> usize
    requires { block < 4294967296 }
    ensures { Carried block result }
{
    let mut b = block;
    let mut i = 0;
    // A while: the block's bits say where it ends.
    while b % 2 == 1 {
        b = b / 2;
        i += 1;
    }
    i
}

// The values of an edge in the 64 places of a block.
fn hit_word(work: &[u32], root: u32) -> u64
    requires { 16 * (root / 2) + 16 ≤ length work.now }
    ensures { (h q : ℕ) → h < 2 → q < 32 → bit result (32 * h + q) ≡ value (half work.now h q) root }
{
    let low = edge_half(work, root, 0) as u64;
    let high = edge_half(work, root, 1) as u64;
    high * 4294967296 + low
}

// The values of all nodes in a block. Answers which places hit.
fn start_hits(work: &mut [u32], g: Graph, root: u32, slots: &[u32], count: usize, block: u64) -> u64
    requires net { Net (pairs_of work.old g) root work.old g }
    requires slots_of { SlotsOf (pairs_of work.old g) root g slots.now count }
    requires block_bound { 64 * block + 63 < 4294967296 }
    ensures { Started work.old work.new g root block result }
{
    let free = g.free;
    clear_leaves(work, g);
    put_slots(work, slots, 0, count, block);
    eval_gates(work, g, free + 1);
    hit_word(work, root)
}

// From the values in a block to those in the next one: only what the slots that change lead to is evaluated. Answers which places hit.
fn next_hits(
    work: &mut [u32],
    g: Graph,
    root: u32,
    slots: &[u32],
    firsts: &[u32],
    block: u64,
) -> u64
    requires by_index { (count : ℕ) × Scannable work.old g root slots.now firsts.now count × (64 * (block + 1) < 2 ^ count) }
    requires block_bound { block < 67108864 }
    ensures { Advanced work.old work.new g root block result }
{
    let top = 6 + carry(block);
    let first = firsts[top] as usize;
    put_slots(work, slots, 6, top + 1, block + 1);
    eval_gates(work, g, first);
    hit_word(work, root)
}

// The first place of a block that hits, or total.
fn first_in(block: u64, hits: u64, total: u64) -> u64
    requires { (block < 67108864) × (total ≤ 4294967296) }
    ensures { FirstIn block hits total result }
{
    let p = words::first_difference(hits, 0) as u64;
    let y = 64 * block + p;
    if y < total {
        return y;
    }
    total
}

// A block of 64 places, and which of them hit.
#[derive(Clone, Copy)]
struct Block {
    number: u64,
    hits: u64,
}

// The first place below total that hits, or total. The values are those in block `from`.
fn scan(
    work: &mut [u32],
    g: Graph,
    root: u32,
    slots: &[u32],
    firsts: &[u32],
    from: Block,
    total: u64,
) -> u64
    requires by_index { (count : ℕ) × Scannable work.old g root slots.now firsts.now count × (total ≤ 2 ^ count) }
    requires number_bound { (from.number < 67108864) × (total ≤ 4294967296) }
    requires in_block { InBlock g.free (pairs_of work.old g) root from.number work.old g.nodes }
    requires by_index_2 { (p : ℕ) → p < 64 → bit from.hits p ≡ hit_at g.free (pairs_of work.old g) root (from.number * 64 + p) }
    requires by_index_3 { (y : ℕ) → y < 64 * from.number → T (hit_at g.free (pairs_of work.old g) root y) → ⊥ }
    ensures { First (hit_at g.free (pairs_of work.old g) root) total result }
{
    let mut block = from.number;
    let mut hits = from.hits;
    // A while: the last block, which may be cut off, is left to the end, and its number with its hits.
    while 64 * block + 64 < total {
        if hits != 0 {
            return first_in(block, hits, total);
        }
        hits = next_hits(work, g, root, slots, firsts, block);
        block += 1;
    }
    first_in(block, hits, total)
}

// Makes the first n words 0.
fn clear_front(work: &mut [u32], n: usize)
    requires { n ≤ length work.old }
    ensures { (j : ℕ) → j < n → get_or work.new j 0 ≡ 0 }
{
    for j in 0..n {
        work[j] = 0;
    }
}

// Gives the free bits of the first count slots the bits of y, free bit j in word j.
fn put_bits(work: &mut [u32], slots: &[u32], count: usize, y: u64)
    requires slotted { Slotted (length work.old) slots.now count }
    requires by_index { (k : ℕ) → k < count → 1 ≤ get_or slots.now k 0 }
    ensures { BitsPut work.old work.new slots.now count y }
{
    for k in 0..count {
        let v = slots[k] as usize;
        work[v - 1] = places::bit_of(y, k);
    }
}

// How many slots r free bits take.
fn slot_count(r: usize) -> usize
    ensures { result ≡ min r 32 }
{
    r.min(32)
}

// How many whole blocks lie below place `from`: all but the last of those whose places are below 2 to the power 32, where it is not below.
fn whole_blocks(from: u64) -> u64
    ensures { (64 * result ≤ from) × (result < 67108864) }
{
    if 4294967296 <= from {
        return 67108863;
    }
    from / 64
}

// What a scan finds: a first hit; no hit; or none so far. An enum of its own: three outcomes, of which none is a failure.
#[derive(Clone, Copy)]
pub enum Found {
    Hit,
    Clear,
    Spent,
}

// The first hit, where r free bits count and no place below `from` hits.
fn scan_slots(
    work: &mut [u32],
    g: Graph,
    root: u32,
    slots: &[u32],
    from: u64,
    r: usize,
    d: u64,
) -> Found
    requires net { Net (pairs_of work.old g) root work.old g }
    requires counted { Counted (pairs_of work.old g) root g slots.now from r }
    requires d_bound { d ≤ 4294967296 }
    ensures { FoundIs g.free (pairs_of work.old g) root d work.new result }
{
    let mut firsts = [0u32; 32];
    let free = g.free;
    let total = places::tries(r, d);
    let count = slot_count(r);
    let start = whole_blocks(from);
    fill_firsts(work, g, slots, count, &mut firsts);
    let hits = start_hits(work, g, root, slots, count, start);
    let block = Block {
        number: start,
        hits,
    };
    let y = scan(work, g, root, slots, &firsts, block, total);
    if y < total {
        clear_front(work, free);
        put_bits(work, slots, count, y);
        return Found::Hit;
    }
    if places::covers(r, d) {
        Found::Clear
    } else {
        Found::Spent
    }
}

// The first hit of the root among the places of its support, with a budget of d places, none of which hits before place `from`. Where
// there is a first hit, its free bits are left at the front of working memory.
pub fn first_hit(work: &mut [u32], g: Graph, root: Edge, from: u64, d: u64) -> Found
    requires net { Net (pairs_of work.old g) (edge_word root) work.old g }
    requires d_bound { d ≤ 4294967296 }
    requires by_index { (y : ℕ) → y < from → T (hit_at g.free (pairs_of work.old g) (edge_word root) y) → ⊥ }
    ensures { FoundIs g.free (pairs_of work.old g) (edge_word root) d work.new result }
{
    let mut slots = [0u32; 32];
    let free = g.free;
    let e = root.word() as u32;
    let r = fill_slots(work, g, &mut slots, 0, free, 0);
    scan_slots(work, g, e, &slots, from, r, d)
}
