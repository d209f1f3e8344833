// The words of the joined circuit, section by section.
#![tactic(auto)]

ghost use Rattle.std.specs.Prelude.{◌≡◌, ℕ, ◌+◌, ◌*◌, ◌≤◌, ◌<◌, length};
ghost use Rattle.aiger.specs.Load.{needed};
ghost use Rattle.aiger.specs.Memory.{image};
ghost use Rattle.aiger.specs.Operations.{front};
ghost use Rattle.literals.specs.Literal.{word_of};
ghost use Rattle.layout.specs.Words.{word, circuit_in};
ghost use Rattle.joined.specs.Joined.{joined};
ghost use Rattle.renumber.specs.Names.{Put, Within, under};
ghost use Rattle.pairing.specs.Words.{
  triple_word,
  pair_word,
  pairs_word,
  Small,
  Table,
  definition_words,
  property_words,
  gate_words_of,
  pairs_var,
  properties_at,
  gates_from,
  After,
  variables,
  JoinFits,
};

use layout::Layout;
use literals::{Lit, Var};
use renumber::{rename, rename_words};

// Writes the inputs, 2, 4 and so on.
fn put_inputs(m: &mut [u32], n: usize)
    requires { (n ≤ 256) × (7 + n ≤ length m.old) }
    ensures { Put 7 (λ i. 2 * (i + 1)) n m.old m.new }
{
    for i in 0..n {
        m[7 + i] = Lit(Var(i as u32 + 1), false).word() as u32;
    }
}

// Writes the bad lines of n pairs, whose first gate has the variable v.
fn put_bads(m: &mut [u32], to: usize, n: usize, v: Var)
    requires { (n ≤ 16) × (v.0 ≤ 4096) × (to + n ≤ length m.old) }
    ensures { Put to (λ j. 2 * (v.0 + 3 * j + 2) + 1) n m.old m.new }
{
    for j in 0..n {
        m[to + j] = Lit(Var(v.0 + 3 * j as u32 + 2), true).word() as u32;
    }
}

// Writes the first n of some words to m from `to` on.
fn copy_words(from: &[u32], n: usize, m: &mut [u32], to: usize)
    requires { (n ≤ length from.now) × (to + n ≤ length m.old) }
    ensures { Put to (word from.now) n m.old m.new }
{
    let mut j: usize = 0;
    while j < n {
        m[to + j] = from[j];
        j += 1;
    }
}

// Writes the words of a gate from `to` on.
fn put_gate(m: &mut [u32], to: usize, lit: Lit, left: Lit, right: Lit)
    requires { (word_of lit ≤ 10005) × (word_of left ≤ 10005) × (word_of right ≤ 10005) × (to + 3 ≤ length m.old) }
    ensures { Put to (triple_word (word_of lit) (word_of left) (word_of right)) 3 m.old m.new }
{
    let row = [lit.word() as u32, left.word() as u32, right.word() as u32];
    copy_words(&row, 3, m, to);
}

// Writes the three gates of outputs p and q from `to` on; the first has the variable v.
fn put_pair(m: &mut [u32], to: usize, v: Var, p: Lit, q: Lit)
    requires { (v.0 ≤ 5000) × (word_of p ≤ 8193) × (word_of q ≤ 8193) × (to + 9 ≤ length m.old) }
    ensures { Put to (pair_word v.0 (word_of p) (word_of q)) 9 m.old m.new }
{
    let first = Lit(v, false);
    let second = Lit(Var(v.0 + 1), false);
    put_gate(m, to, first, p, q.complement());
    put_gate(m, to + 3, second, p.complement(), q);
    put_gate(
        m,
        to + 6,
        Lit(Var(v.0 + 2), false),
        first.complement(),
        second.complement(),
    );
}

// The variable of the first gate of the pairs.
fn pairs_var(p: Layout, q: Layout) -> Var
    requires { Small p × Small q }
    ensures { result.0 ≡ pairs_var p q }
{
    Var((p.i + p.l + q.l + p.a + q.a + 1) as u32)
}

// Where the bad lines begin.
fn properties_at(p: Layout, q: Layout) -> usize
    requires { Small p × Small q }
    ensures { result ≡ properties_at p q }
{
    7 + p.i + 3 * p.l + 3 * q.l
}

// Where the gates begin.
fn gates_from(p: Layout, q: Layout) -> usize
    requires { Small p × Small q }
    ensures { result ≡ gates_from p q }
{
    properties_at(p, q) + p.o + p.c + q.c
}

// Where the gates of the pairs begin.
fn pairs_from(p: Layout, q: Layout) -> usize
    requires { Small p × Small q }
    ensures { result ≡ gates_from p q + 3 * p.a + 3 * q.a }
{
    gates_from(p, q) + 3 * p.a + 3 * q.a
}

// The words that the joined circuit needs.
fn words_needed(p: Layout, q: Layout) -> usize
    requires { Small p × Small q }
    ensures { result ≡ needed (variables p q) }
{
    let all = p.i + p.l + q.l + p.a + q.a + 3 * p.o;
    8 * (all + 1) + 256
}

// Writes the gates of the pairs of outputs.
fn put_pairs(
    a: &[u32],
    p: Layout,
    first: &[u32],
    b: &[u32],
    q: Layout,
    second: &[u32],
    m: &mut [u32],
)
    requires table { Table a.now p first.now × Table b.now q second.now × Small p × Small q × (p.o ≤ 16) × (p.o ≡ q.o) }
    requires q_bound { (pairs_var p q ≤ 4096) × (gates_from p q + 3 * p.a + 3 * q.a + 9 * p.o ≤ length m.old) }
    ensures { Put (gates_from p q + 3 * p.a + 3 * q.a) (pairs_word (pairs_var p q)
        (λ j. under first.now (word a.now (p.outputs + j)))
        (λ j. under second.now (word b.now (q.outputs + j)))) (9 * p.o) m.old m.new }
{
    let to = pairs_from(p, q);
    let v = pairs_var(p, q);
    for j in 0..p.o {
        let x = rename(first, Lit::from_word(a[p.outputs + j]));
        let y = rename(second, Lit::from_word(b[q.outputs + j]));
        put_pair(m, to + 9 * j, Var(v.0 + 3 * j as u32), x, y);
    }
}

// Writes the counts, the inputs and the latches of both circuits.
fn write_definitions(
    a: &[u32],
    p: Layout,
    first: &[u32],
    b: &[u32],
    q: Layout,
    second: &[u32],
    m: &mut [u32],
)
    requires table { Table a.now p first.now × Table b.now q second.now × Small p × Small q }
    requires l_in_bounds { 7 + p.i + 3 * p.l + 3 * q.l ≤ length m.old }
    ensures { m.new ≡ front (definition_words a.now p first.now b.now q second.now)
        m.old }
{
    let latches = p.l + q.l;
    let gates = p.a + q.a + 3 * p.o;
    let all = (p.i + latches + gates) as u32;
    let row = [
        all,
        p.i as u32,
        latches as u32,
        0,
        gates as u32,
        p.o as u32,
        (p.c + q.c) as u32,
    ];
    copy_words(&row, 7, m, 0);
    put_inputs(m, p.i);
    rename_words(a, p.latches, 3 * p.l, first, m, 7 + p.i);
    rename_words(b, q.latches, 3 * q.l, second, m, 7 + p.i + 3 * p.l);
}

// Writes the bad lines, and the constraints of both circuits.
fn write_properties(
    a: &[u32],
    p: Layout,
    first: &[u32],
    b: &[u32],
    q: Layout,
    second: &[u32],
    m: &mut [u32],
)
    requires table { Table a.now p first.now × Table b.now q second.now × Small p × Small q × (p.o ≤ 16) }
    requires q_bound { (pairs_var p q ≤ 4096) × (properties_at p q + p.o + p.c + q.c ≤ length m.old) }
    ensures { After (properties_at p q) (property_words a.now p first.now b.now q second.now)
        m.old m.new }
{
    let at = properties_at(p, q);
    let v = pairs_var(p, q);
    put_bads(m, at, p.o, v);
    rename_words(a, p.constraints, p.c, first, m, at + p.o);
    rename_words(b, q.constraints, q.c, second, m, at + p.o + p.c);
}

// Writes the gates of both circuits and those of the pairs.
fn write_gates(
    a: &[u32],
    p: Layout,
    first: &[u32],
    b: &[u32],
    q: Layout,
    second: &[u32],
    m: &mut [u32],
)
    requires table { Table a.now p first.now × Table b.now q second.now × Small p × Small q × (p.o ≤ 16) × (p.o ≡ q.o) }
    requires q_bound { (pairs_var p q ≤ 4096) × (gates_from p q + 3 * p.a + 3 * q.a + 9 * p.o ≤ length m.old) }
    ensures { After (gates_from p q) (gate_words_of a.now p first.now b.now q second.now)
        m.old m.new }
{
    let at = gates_from(p, q);
    rename_words(a, p.gates, 3 * p.a, first, m, at);
    rename_words(b, q.gates, 3 * q.a, second, m, at + 3 * p.a);
    put_pairs(a, p, first, b, q, second, m);
}

// Writes n zeros from `to` on.
fn put_zeros(m: &mut [u32], to: usize, n: usize)
    requires { to + n ≤ length m.old }
    ensures { Put to (λ _. 0) n m.old m.new }
{
    let mut j: usize = 0;
    while j < n {
        m[to + j] = 0;
        j += 1;
    }
}

// Writes the joined circuit: the tables first and second have the numbers of the variables of the circuits in a and b.
pub fn write_joined(
    a: &[u32],
    p: Layout,
    first: &[u32],
    b: &[u32],
    q: Layout,
    second: &[u32],
    m: &mut [u32],
)
    requires join_fits { JoinFits a.now p first.now b.now q second.now }
    requires q_in_bounds { needed (variables p q) ≤ length m.old }
    ensures { m.new ≡ front (image (joined (circuit_in a.now) (circuit_in b.now))) m.old }
{
    write_definitions(a, p, first, b, q, second, m);
    write_properties(a, p, first, b, q, second, m);
    write_gates(a, p, first, b, q, second, m);
    let end = pairs_from(p, q) + 9 * p.o;
    put_zeros(m, end, words_needed(p, q) - end);
}
