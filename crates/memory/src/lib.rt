// The words of a conflict search: a record for each node of a netlist, literals of clauses after the records, heads of clauses from the
// last word downward. Words are read and stored with a test of the index, so that no caller has to show where it reads or stores.
#![tactic(auto)]

ghost use Rattle.std.specs.Prelude.{◌≡◌, get_or, set};
ghost use Rattle.memory.specs.Record as R;

// A netlist in memory: how many nodes it has, how many of them are free bits (nodes 1 to free), the edge whose truth is a hit, and how
// many words the search has.
#[derive(Clone, Copy)]
pub struct Netlist {
    pub nodes: u32,
    pub free: u32,
    pub root: u32,
    pub words: u32,
}

// Kept clauses: how many words their literals take, and how many clauses there are.
#[derive(Clone, Copy)]
pub struct Arena {
    pub used: u32,
    pub count: u32,
}

// The working clause: its length, and whether every literal found room so far.
#[derive(Clone, Copy)]
pub struct Draft {
    pub length: u32,
    pub whole: bool,
}

// The trail: its length, the first entry whose consequences are not yet known, the level of decisions, and the work done so far.
#[derive(Clone, Copy)]
pub struct Trail {
    pub length: u32,
    pub next: u32,
    pub level: u32,
    pub ticks: u64,
}

// The heap of nodes by activity: how many stand in it, and by how much a conflict raises an activity.
#[derive(Clone, Copy)]
pub struct Heap {
    pub size: u32,
    pub step: u32,
}

// The word that names no clause, no reason and no place in a list of watches.
pub const UNDEF: u32 = 4294967295;

// The largest word.
pub const LARGEST: u32 = 4294967295;

// The words of a node's record. RIGHT is the one after LEFT, and WATCH and FAN are two words each, one for either sign or side.
pub const LEFT: u8 = 0;

pub const FACT: u8 = 2;

pub const POS: u8 = 3;

pub const REASON: u8 = 4;

pub const VAL: u8 = 5;

pub const LEVEL: u8 = 6;

pub const WATCH: u8 = 7;

pub const TRAIL: u8 = 9;

pub const HEAP: u8 = 10;

pub const ACT: u8 = 11;

pub const FAN: u8 = 12;

// Word i, or 0 past the end. `work.get(i).copied().unwrap_or(0)` is no plainer, and two calls more at each read of a search.
pub fn get(work: &[u32], i: usize) -> u32
    ensures { result ≡ get_or work.now i 0 }
{
    if i < work.len() { work[i] } else { 0 }
}

// Stores x at i, unless that is past the end.
pub fn put(work: &mut [u32], i: usize, x: u32)
    ensures { work.new ≡ set work.old i x }
{
    if i < work.len() {
        work[i] = x;
    }
}

// Where word f of the record of node v stands.
pub fn place(v: u32, f: u8) -> usize
    ensures { result ≡ R.place v f }
{
    14 * (v as usize) + (f as usize)
}

// Word f of the record of node v, or 0 where there is no such node.
pub fn field(work: &[u32], nodes: u32, v: u32, f: u8) -> u32
    ensures { result ≡ R.field work.now nodes v f }
{
    if nodes <= v {
        return 0;
    }
    get(work, place(v, f))
}

// Stores x as word f of the record of node v, if there is such a node.
pub fn set_field(work: &mut [u32], nodes: u32, v: u32, f: u8, x: u32)
    ensures { work.new ≡ R.stored work.old nodes v f x }
{
    if nodes <= v {
        return;
    }
    put(work, place(v, f), x);
}

// One more, or the largest word.
pub fn successor(i: u32) -> u32
    ensures { result ≡ R.successor i }
{
    if i == LARGEST { i } else { i + 1 }
}

// The complement of a literal.
pub fn opposite(l: u32) -> u32
    ensures { result ≡ R.opposite l }
{
    if l % 2 == 0 { l + 1 } else { l - 1 }
}

// Where word f of the head of clause c stands.
pub fn head_place(words: u32, c: u32, f: u8) -> usize
    ensures { result ≡ R.head_place words c f }
{
    let up = (words as usize) + (f as usize);
    let down = 6 * (c as usize) + 6;
    if up < down { 0 } else { up - down }
}

// Word f of the head of clause c.
pub fn head(work: &[u32], words: u32, c: u32, f: u8) -> u32
    ensures { result ≡ R.head work.now words c f }
{
    get(work, head_place(words, c, f))
}

// Stores x as word f of the head of clause c.
pub fn set_head(work: &mut [u32], words: u32, c: u32, f: u8, x: u32)
    ensures { work.new ≡ R.headed work.old words c f x }
{
    put(work, head_place(words, c, f), x);
}

// The literal i words after place p, which is counted from the first word after the records of so many nodes.
pub fn literal(work: &[u32], nodes: u32, p: u32, i: u32) -> u32
    ensures { result ≡ R.literal work.now nodes p i }
{
    get(work, 14 * (nodes as usize) + (p as usize) + (i as usize))
}

// Stores x as the literal i words after place p.
pub fn set_literal(work: &mut [u32], nodes: u32, p: u32, i: u32, x: u32)
    ensures { work.new ≡ R.written work.old nodes p i x }
{
    put(work, 14 * (nodes as usize) + (p as usize) + (i as usize), x);
}
