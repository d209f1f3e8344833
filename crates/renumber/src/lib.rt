// New numbers of variables: tables of them, and literals under them.
#![tactic(auto)]

ghost use Rattle.std.specs.Prelude.{◌≡◌, ℕ, ◌+◌, ◌*◌, ◌≤◌, ◌<◌, length};
ghost use Rattle.aiger.specs.Circuit.{var};
ghost use Rattle.aiger.specs.Memory.{Holds};
ghost use Rattle.literals.specs.Literal.{word_of};
ghost use Rattle.layout.specs.Layout.{LayoutOf};
ghost use Rattle.layout.specs.Words.{word, circuit_in};
ghost use Rattle.frames.specs.Lanes.{Apart, Stored};
ghost use Rattle.renumber.specs.Names.{Put, Within, under, named, Named};

use layout::Layout;
use literals::{Lit, Var};

// Gives the variables of n inputs, which stand from 7 on, numbers from 1 on.
pub fn number_inputs(m: &[u32], n: usize, names: &mut [u32])
    requires n_bound { (n ≤ 256) × (7 + n ≤ length m.now) }
    requires apart { Apart (λ j. var (word m.now (7 + j))) n (length names.old) }
    ensures { Stored (λ j. var (word m.now (7 + j))) (λ j. 1 + j) n names.old names.new }
{
    for j in 0..n {
        let v = Lit::from_word(m[7 + j]).var();
        names[v.0 as usize] = 1 + j as u32;
    }
}

// Gives the variables of n latches or gates, three words each from `at` on, numbers from `first` on.
pub fn number_triples(m: &[u32], at: usize, n: usize, first: u32, names: &mut [u32])
    requires n_bound { (n ≤ 4096) × (first ≤ 8192) × (at + 3 * n ≤ length m.now) }
    requires apart { Apart (λ j. var (word m.now (at + 3 * j))) n (length names.old) }
    ensures { Stored (λ j. var (word m.now (at + 3 * j))) (λ j. first + j) n names.old names.new }
{
    for j in 0..n {
        let v = Lit::from_word(m[at + 3 * j]).var();
        names[v.0 as usize] = first + j as u32;
    }
}

// Numbers the variables of the circuit in m: inputs from 1 on, latches from `latch` on, gates from `gate` on. names is all 0 before.
pub fn number_all(m: &[u32], p: Layout, latch: u32, gate: u32, names: &mut [u32])
    requires holds { Holds m.now (circuit_in m.now) }
    requires layout_of { LayoutOf m.now p }
    requires in_bounds { (4097 ≤ length names.old) × (latch ≤ 4097) × (gate ≤ 4097) × ((v : ℕ) → word names.old v ≡ 0) }
    ensures { Named (circuit_in m.now) latch gate names.new }
{
    number_inputs(m, p.i, names);
    number_triples(m, p.latches, p.l, latch, names);
    number_triples(m, p.gates, p.a, gate, names);
}

// The literal under the numbers of the table.
pub fn rename(names: &[u32], l: Lit) -> Lit
    requires { (l.0.0 < length names.now) × (word names.now l.0.0 ≤ 4096) }
    ensures { (result ≡ named names.now l) × (word_of result ≤ 8193) }
{
    let v = l.0.0 as usize;
    Lit(Var(names[v]), l.1)
}

// The same of the literal that a word stands for, as a word.
pub fn rename_word(names: &[u32], w: u32) -> u32
    requires { (var w < length names.now) × (word names.now (var w) ≤ 4096) }
    ensures { (result ≡ under names.now w) × (result ≤ 8193) }
{
    rename(names, Lit::from_word(w)).word() as u32
}

// Writes n literals from `at` on, under the numbers of the table, to m from `to` on.
pub fn rename_words(from: &[u32], at: usize, n: usize, names: &[u32], m: &mut [u32], to: usize)
    requires n_in_bounds { (at + n ≤ length from.now) × (to + n ≤ length m.old) }
    requires within { Within from.now at n names.now }
    ensures { Put to (λ j. under names.now (word from.now (at + j))) n m.old m.new }
{
    for j in 0..n {
        m[to + j] = rename_word(names, from[at + j]);
    }
}
