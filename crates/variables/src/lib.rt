// The table of definitions, and the causes 6 and 7. The table has, for each variable, one more than the place of its definition in
// file order, or 0.
#![tactic(auto)]

ghost use Rattle.std.specs.Prelude.{◌≡◌, ◌||◌, ℕ, ◌+◌, ◌/◌, ◌<◌, ◌≤◌, leb, eqb, length, get_or, replicate};
ghost use Rattle.literals.specs.Literal.{word_of};
ghost use Rattle.layout.specs.Words.{word};
ghost use Rattle.layout.specs.Layout.{Counted};
ghost use Rattle.columns.specs.Columns.{Inside, Each, Used, total};
ghost use Rattle.variables.specs.Table.{Says, Known, Defining, Enters, Defined, Resets, Tested, Literals};

use columns::{Column, Role, column_of};
use literals::{Lit, Var};

// Enters the variable of a literal under a label; m is the greatest variable. False where the literal cannot define one, or where the
// table has it already.
fn enter(table: &mut [u32], m: Var, l: Lit, label: u32) -> bool
    requires { m.0 < length table.old }
    ensures { Enters m.0 (word_of l) label table.old table.new result }
{
    if l.is_constant() {
        return false;
    }
    if l.is_complement() {
        return false;
    }
    let v = l.var();
    if v.0 > m.0 {
        return false;
    }
    let at = v.0 as usize;
    if table[at] != 0 {
        return false;
    }
    table[at] = label;
    true
}

// Enters the literals of a column; base definitions come before them. False where one is wrong or repeated.
fn define(w: &[u32], table: &mut [u32], c: Column, m: Var, base: u32) -> bool
    requires { Defining w.now c m.0 base table.old }
    ensures { Defined w.now (base + c.n) table.new result }
{
    let at = c.at;
    let stride = c.stride;
    let n = c.n;
    let mut i = 0;
    while i < n {
        let l = Lit::from_word(w[at + stride * i]);
        if !enter(table, m, l, base + i as u32 + 1) {
            return false;
        }
        i += 1;
    }
    true
}

// Enters every definition. False where one is wrong or repeated.
fn define_all(w: &[u32], table: &mut [u32]) -> bool
    requires counted { Counted w.now }
    requires w_in_bounds { word w.now 0 < length table.old }
    requires by_index { (v : ℕ) → get_or table.old v 0 ≡ 0 }
    ensures { Defined w.now (total w.now) table.new result }
{
    let m = Var(w[0]);
    if !define(w, table, column_of(w, Role::Input), m, 0) {
        return false;
    }
    let base = w[1];
    if !define(w, table, column_of(w, Role::Latch), m, base) {
        return false;
    }
    define(w, table, column_of(w, Role::Gate), m, base + w[2])
}

// Whether each literal of a column is at most 2m + 1.
fn bounded(w: &[u32], c: Column, m: Var) -> bool
    requires { Inside w.now c }
    ensures { Says result (Each w.now c (λ l. l / 2 ≤ m.0)) }
{
    let at = c.at;
    let stride = c.stride;
    let n = c.n;
    let mut i = 0;
    while i < n {
        let v = Lit::from_word(w[at + stride * i]).var();
        if v.0 > m.0 {
            return false;
        }
        i += 1;
    }
    true
}

// Whether each literal that is used is at most 2M + 1.
fn used_bounded(w: &[u32]) -> bool
    requires { Counted w.now }
    ensures { Says result (Used w.now (λ l. l / 2 ≤ word w.now 0)) }
{
    let m = Var(w[0]);
    if !bounded(w, column_of(w, Role::Next), m) {
        return false;
    }
    if !bounded(w, column_of(w, Role::Root), m) {
        return false;
    }
    if !bounded(w, column_of(w, Role::Left), m) {
        return false;
    }
    bounded(w, column_of(w, Role::Right), m)
}

// Whether r is a reset of the latch l.
fn is_reset(l: Lit, r: Lit) -> bool
    ensures { result ≡ (leb (word_of r) 1 || eqb (word_of r) (word_of l)) }
{
    r.is_constant() | r.equals(l)
}

// Whether each latch has a right reset.
fn resets(w: &[u32]) -> bool
    requires { Counted w.now }
    ensures { Says result (Resets w.now) }
{
    let p = layout::layout_of(w);
    let at = p.latches;
    let n = p.l;
    let mut j = 0;
    while j < n {
        let lit = Lit::from_word(w[at + 3 * j]);
        let reset = Lit::from_word(w[at + 3 * j + 2]);
        if !is_reset(lit, reset) {
            return false;
        }
        j += 1;
    }
    true
}

// Whether there is no cause 6. Every definition is then in the table; else some may be.
fn test_literals(w: &[u32], table: &mut [u32]) -> bool
    requires counted { Counted w.now }
    requires w_in_bounds { word w.now 0 < length table.old }
    requires by_index { (v : ℕ) → get_or table.old v 0 ≡ 0 }
    ensures { Tested w.now table.new result }
{
    if !define_all(w, table) {
        return false;
    }
    if !used_bounded(w) {
        return false;
    }
    resets(w)
}

// Stores 0 in every word.
pub fn clear(words: &mut [u32])
    ensures { words.new ≡ replicate (length words.old) 0 }
{
    let mut k = 0;
    while k < words.len() {
        words[k] = 0;
        k += 1;
    }
}

// Cause 6: true where there is none. Every definition is then in the table; else the table is as it was, all 0.
pub fn literals_right(w: &[u32], table: &mut [u32]) -> bool
    requires counted { Counted w.now }
    requires w_in_bounds { word w.now 0 < length table.old }
    requires by_index { (v : ℕ) → get_or table.old v 0 ≡ 0 }
    ensures { Literals w.now table.old table.new result }
{
    if test_literals(w, table) {
        return true;
    }
    clear(table);
    false
}

// Whether the variable of a literal is 0 or in the table.
fn known(table: &[u32], l: Lit) -> bool
    requires { l.0.0 < length table.now }
    ensures { Says result (Known table.now (word_of l)) }
{
    if l.is_constant() {
        return true;
    }
    let at = l.var().0 as usize;
    if table[at] == 0 {
        return false;
    }
    true
}

// Whether each literal of a column has a known variable.
fn all_known(w: &[u32], c: Column, table: &[u32]) -> bool
    requires inside { Inside w.now c }
    requires each { Each w.now c (λ l. l / 2 < length table.now) }
    ensures { Says result (Each w.now c (Known table.now)) }
{
    let at = c.at;
    let stride = c.stride;
    let n = c.n;
    let mut i = 0;
    while i < n {
        if !known(table, Lit::from_word(w[at + stride * i])) {
            return false;
        }
        i += 1;
    }
    true
}

// Whether every literal that is used has a definition in the table. Where the table has all definitions of the circuit this is the test for
// cause 7.
pub fn used_defined(w: &[u32], table: &[u32]) -> bool
    requires counted { Counted w.now }
    requires used { Used w.now (λ l. l / 2 < length table.now) }
    ensures { Says result (Used w.now (Known table.now)) }
{
    if !all_known(w, column_of(w, Role::Next), table) {
        return false;
    }
    if !all_known(w, column_of(w, Role::Root), table) {
        return false;
    }
    if !all_known(w, column_of(w, Role::Left), table) {
        return false;
    }
    all_known(w, column_of(w, Role::Right), table)
}
