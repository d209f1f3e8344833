// Where the parts of a circuit stand in circuit memory.
#![tactic(auto)]

ghost use Rattle.std.specs.Prelude.{◌≡◌, cond, ◌≤◌, ◌<◌, ◌^◌, eqb, length};
ghost use Rattle.aiger.specs.Frames.{free_starts};
ghost use Rattle.literals.specs.Literal.{word_of};
ghost use Rattle.layout.specs.Words.{word, circuit_in};
ghost use Rattle.layout.specs.Layout.{LayoutOf, PlacesOf, Counted};
ghost use Rattle.layout.specs.Table.{section_at};

use literals::Lit;

// A circuit's counts, M I L O A B C, the positions where its latches, outputs, bad lines, constraints and gates begin and where the
// last gate ends, and U, the number of latches with a free start. The inputs begin at 7.
#[derive(Clone, Copy)]
pub struct Layout {
    pub m: usize,
    pub i: usize,
    pub l: usize,
    pub o: usize,
    pub a: usize,
    pub b: usize,
    pub c: usize,
    pub latches: usize,
    pub outputs: usize,
    pub bads: usize,
    pub constraints: usize,
    pub gates: usize,
    pub end: usize,
    pub u: usize,
}

// A section of a circuit: where it begins in circuit memory, how many rows it has, how many numbers a line of it has at least, and how
// many words a row has, which is how many numbers a line has at most.
#[derive(Clone, Copy)]
pub struct Section {
    pub at: usize,
    pub rows: usize,
    pub least: usize,
    pub most: usize,
}

// Section k of the six, in the order of file and memory: inputs, latches, outputs, bad lines, constraints, gates. k is a number and no
// enum, since callers count through the six.
pub fn section_at(p: Layout, k: usize) -> Section
    requires { k < 6 }
    ensures { result ≡ section_at p k }
{
    match k {
        0 => Section {
            at: 7,
            rows: p.i,
            least: 1,
            most: 1,
        },
        1 => Section {
            at: p.latches,
            rows: p.l,
            least: 2,
            most: 3,
        },
        2 => Section {
            at: p.outputs,
            rows: p.o,
            least: 1,
            most: 1,
        },
        3 => Section {
            at: p.bads,
            rows: p.b,
            least: 1,
            most: 1,
        },
        4 => Section {
            at: p.constraints,
            rows: p.c,
            least: 1,
            most: 1,
        },
        _ => Section {
            at: p.gates,
            rows: p.a,
            least: 3,
            most: 3,
        },
    }
}

// Word i, as a count.
pub fn count_at(m: &[u32], i: usize) -> usize
    requires { i < length m.now }
    ensures { (result ≡ word m.now i) × (result < 2 ^ 32) }
{
    m[i] as usize
}

// The counts and positions that the first seven words encode. U, which they do not tell, is left 0.
pub fn layout_of(m: &[u32]) -> Layout
    requires { 7 ≤ length m.now }
    ensures { PlacesOf m.now result × (result.u ≡ 0) }
{
    let i = count_at(m, 1);
    let l = count_at(m, 2);
    let o = count_at(m, 3);
    let a = count_at(m, 4);
    let b = count_at(m, 5);
    let c = count_at(m, 6);
    let latches = 7 + i;
    let outputs = latches + 3 * l;
    let bads = outputs + o;
    let constraints = bads + b;
    let gates = constraints + c;
    Layout {
        m: count_at(m, 0),
        i,
        l,
        o,
        a,
        b,
        c,
        latches,
        outputs,
        bads,
        constraints,
        gates,
        end: gates + 3 * a,
        u: 0,
    }
}

// 1 for a latch with a free start, else 0.
pub fn free_start(lit: Lit, reset: Lit) -> usize
    ensures { result ≡ cond (eqb (word_of reset) (word_of lit)) 1 0 }
{
    if reset.equals(lit) { 1 } else { 0 }
}

// The number of latches with a free start.
fn free_starts(m: &[u32], p: Layout) -> usize
    requires { PlacesOf m.now p × Counted m.now }
    ensures { result ≡ free_starts (circuit_in m.now) }
{
    let latches = p.latches;
    let l = p.l;
    let mut free = 0;
    for j in 0..l {
        let lit = Lit::from_word(m[latches + 3 * j]);
        let reset = Lit::from_word(m[latches + 3 * j + 2]);
        free += free_start(lit, reset);
    }
    free
}

// The layout p with U.
pub fn with_starts(m: &[u32], p: Layout) -> Layout
    requires { PlacesOf m.now p × Counted m.now }
    ensures { LayoutOf m.now result }
{
    let mut layout = p;
    layout.u = free_starts(m, p);
    layout
}
