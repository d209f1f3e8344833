// Conjunction of two edges, by their cofactors at the topmost variable, with a cache of results.
#![tactic(auto)]

ghost use Rattle.std.specs.Prelude.{◌≡◌};
ghost use Rattle.diagrams.specs.States as S;
ghost use Rattle.conjunction.specs.Conjunction as C;

use diagrams::Full;

// The topmost variable of two edges, and where they lead for its two values.
#[derive(Clone, Copy)]
pub struct Split {
    pub var: u32,
    pub f0: u32,
    pub g0: u32,
    pub f1: u32,
    pub g1: u32,
}

// What the cache has for three operands, for one look.
pub fn look_up(w: &mut [u32], f: u32, g: u32, h: u32) -> Result<Option<u32>, Full>
    ensures { S.seen w.new result ≡ S.looked_up (S.state_of w.old) f g h }
{
    if diagrams::pay(w, 1) {
        return Ok(diagrams::entry(w, f, g, h));
    }
    Err(Full)
}

// The node of two results, kept as the result for three operands.
pub fn finish(w: &mut [u32], v: u32, lo: u32, hi: u32, f: u32, g: u32, h: u32) -> Result<u32, Full>
    ensures { S.left w.new result ≡ S.finished (S.state_of w.old) v lo hi f g h }
{
    let e = diagrams::node(w, v, lo, hi)?;
    diagrams::keep(w, f, g, h, e);
    Ok(e)
}

fn smaller(a: u32, b: u32) -> u32
    ensures { result ≡ C.smaller a b }
{
    if a < b {
        return a;
    }
    b
}

fn larger(a: u32, b: u32) -> u32
    ensures { result ≡ C.larger a b }
{
    if a < b {
        return b;
    }
    a
}

// Where edge e of node n leads where variable v is false: along the node, if v is its variable.
fn low(n: diagrams::Vertex, v: u32, e: u32) -> u32
    ensures { result ≡ C.low n v e }
{
    if n.var == v {
        return diagrams::flip(n.lo, e);
    }
    e
}

fn high(n: diagrams::Vertex, v: u32, e: u32) -> u32
    ensures { result ≡ C.high n v e }
{
    if n.var == v {
        return diagrams::flip(n.hi, e);
    }
    e
}

fn cofactors(w: &[u32], f: u32, g: u32) -> Split
    ensures { result ≡ C.split_of (S.state_of w.now).nodes f g }
{
    let p = diagrams::read(w, f / 2);
    let q = diagrams::read(w, g / 2);
    let var = smaller(p.var, q.var);
    Split {
        var,
        f0: low(p, var, f),
        g0: low(q, var, g),
        f1: high(p, var, f),
        g1: high(q, var, g),
    }
}

// What is known of two different edges in order without their nodes: constants, an edge and its complement, or what the cache has.
fn known(w: &mut [u32], f: u32, g: u32) -> Result<Option<u32>, Full>
    ensures { S.seen w.new result ≡ C.known (S.state_of w.old) f g }
{
    if f == 1 {
        return Ok(Some(g));
    }
    if f == 0 {
        return Ok(Some(0));
    }
    if f / 2 == g / 2 {
        return Ok(Some(0));
    }
    look_up(w, f, g, 0)
}

// The conjunction of two edges in so many nested turns.
fn both_within(w: &mut [u32], a: u32, b: u32, turns: u32) -> Result<u32, Full>
    ensures { S.left w.new result ≡ C.both_within turns (S.state_of w.old) a b }
{
    if a == b {
        return Ok(a);
    }
    let f = smaller(a, b);
    let g = larger(a, b);
    if let Some(e) = known(w, f, g)? {
        return Ok(e);
    }
    if turns == 0 {
        return Err(Full);
    }
    let x = cofactors(w, f, g);
    let lo = both_within(w, x.f0, x.g0, turns - 1)?;
    let hi = both_within(w, x.f1, x.g1, turns - 1)?;
    finish(w, x.var, lo, hi, f, g, 0)
}

// The conjunction of two edges.
pub fn both(w: &mut [u32], f: u32, g: u32) -> Result<u32, Full>
    ensures { S.left w.new result ≡ C.both (S.state_of w.old) f g }
{
    both_within(w, f, g, 1280)
}

// The disjunction of two edges.
pub fn either(w: &mut [u32], f: u32, g: u32) -> Result<u32, Full>
    ensures { S.left w.new result ≡ C.either (S.state_of w.old) f g }
{
    let e = both(w, diagrams::flip(f, 1), diagrams::flip(g, 1))?;
    Ok(diagrams::flip(e, 1))
}
