// Sets of states as edges of a decision diagram: set j has the states whose nearest hit is j frames ahead. The edges stand in a table: set j
// in word j, the union of the sets in word 256, the part of the next set that is made in word 257; from word 258 on the edges of each row,
// one after the other: the next value of each variable, the constraints, the hit; after the last row the edge of the start states.
#![tactic(auto)]

ghost use Rattle.std.specs.Prelude.{◌≡◌, ◌+◌, ◌*◌, ◌≤◌, ◌<◌, length, get_or};
ghost use Rattle.diagrams.specs.States as D;
ghost use Rattle.state_sets.specs.Shape.{Fits, row_at};
ghost use Rattle.state_sets.specs.Sets as S;

use diagrams::Full;

// How many variables states have, and how many rows.
#[derive(Clone, Copy)]
pub struct Shape {
    pub vars: usize,
    pub rows: usize,
}

// Where the edges of row r stand in the table.
pub fn row_at(s: Shape, r: usize) -> usize
    requires { (s.vars ≤ 256) × (r ≤ 16) }
    ensures { result ≡ row_at s.vars r }
{
    258 + r * (s.vars + 2)
}

// The states that row r leads into set `last`, and that are in no set.
fn before(w: &mut [u32], table: &[u32], s: Shape, last: usize, r: usize) -> Result<u32, Full>
    requires fits { Fits s (length table.now) }
    requires last_bound { (last < 256) × (r < s.rows) }
    ensures { D.left w.new result ≡ S.before s.vars last r table.now (D.state_of w.old) }
{
    let from = row_at(s, r);
    let to = from + s.vars;
    let set = table[last];
    let allowed = table[to];
    let others = diagrams::flip(table[256], 1);
    let x = substitution::substituted(w, set, &table[from..to], r as u32)?;
    let y = conjunction::both(w, allowed, x)?;
    conjunction::both(w, others, y)
}

// What row r adds to set `next`: to set 0 the states that it hits in.
fn row_part(w: &mut [u32], table: &[u32], s: Shape, next: usize, r: usize) -> Result<u32, Full>
    requires fits { Fits s (length table.now) }
    requires next_bound { (next < 256) × (r < s.rows) }
    ensures { D.left w.new result ≡ S.row_part s.vars next r table.now (D.state_of w.old) }
{
    if next == 0 {
        let at = row_at(s, r) + s.vars + 1;
        return Ok(table[at]);
    }
    before(w, table, s, next - 1, r)
}

// The part of set `next` that is made, with that of row r.
fn with_row(w: &mut [u32], table: &[u32], s: Shape, next: usize, r: usize) -> Result<u32, Full>
    requires fits { Fits s (length table.now) }
    requires next_bound { (next < 256) × (r < s.rows) }
    ensures { D.left w.new result ≡ S.with_row s.vars next r table.now (D.state_of w.old) }
{
    let part = table[257];
    let x = row_part(w, table, s, next, r)?;
    conjunction::either(w, part, x)
}

// Stores that part; false where the diagram is full.
fn add_row(w: &mut [u32], table: &mut [u32], s: Shape, next: usize, r: usize) -> bool
    requires fits { Fits s (length table.old) }
    requires next_bound { (next < 256) × (r < s.rows) }
    ensures { S.left w.new table.new result ≡ S.added_row s.vars next r (S.sets_of w.old table.old) }
{
    match with_row(w, table, s, next, r) {
        Err(_) => false,
        Ok(e) => {
            table[257] = e;
            true
        }
    }
}

// The part becomes set `next` and joins the union; false where the diagram is full.
fn close(w: &mut [u32], table: &mut [u32], next: usize) -> bool
    requires { (258 ≤ length table.old) × (next < 256) }
    ensures { S.left w.new table.new result ≡ S.closed next (S.sets_of w.old table.old) }
{
    let all = table[256];
    let part = table[257];
    match conjunction::either(w, all, part) {
        Err(_) => false,
        Ok(e) => {
            table[256] = e;
            table[257] = 0;
            table[next] = part;
            true
        }
    }
}

// Step r to set `next`: what row r adds; after the last row the set is closed.
fn step(w: &mut [u32], table: &mut [u32], s: Shape, next: usize, r: usize) -> bool
    requires fits { Fits s (length table.old) }
    requires next_bound { next < 256 }
    ensures { S.left w.new table.new result
        ≡ S.step_of s.vars s.rows next r (S.sets_of w.old table.old) }
{
    if r < s.rows {
        return add_row(w, table, s, next, r);
    }
    close(w, table, next)
}

// The same, and once more after a collection where the diagram is full.
fn step_again(w: &mut [u32], table: &mut [u32], s: Shape, next: usize, r: usize) -> bool
    requires fits { Fits s (length table.old) }
    requires next_bound { next < 256 }
    ensures { S.left w.new table.new result
        ≡ S.again (S.step_of s.vars s.rows next r) (S.sets_of w.old table.old) }
{
    if step(w, table, s, next, r) {
        return true;
    }
    match collection::collect(w, table) {
        Err(_) => false,
        Ok(_) => step(w, table, s, next, r),
    }
}

// Makes set `next` from the set before it, set 0 from the hits; false where the diagram is full.
pub fn advance(w: &mut [u32], table: &mut [u32], s: Shape, next: usize) -> bool
    requires fits { Fits s (length table.old) }
    requires next_bound { next < 256 }
    ensures { S.left w.new table.new result
        ≡ S.advanced s.vars s.rows next (S.sets_of w.old table.old) }
{
    let rows = s.rows;
    let mut r = 0;
    while r <= rows {
        if !step_again(w, table, s, next, r) {
            return false;
        }
        r += 1;
    }
    true
}

// The states of set t that are start states.
pub fn starts_in(w: &mut [u32], table: &[u32], s: Shape, t: usize) -> Result<u32, Full>
    requires fits { Fits s (length table.now) }
    requires t_bound { t < 256 }
    ensures { D.left w.new result ≡ S.starts_in s.vars s.rows t table.now (D.state_of w.old) }
{
    let at = row_at(s, s.rows);
    conjunction::both(w, table[t], table[at])
}
