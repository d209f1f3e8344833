// An edge with other edges in place of the variables. The choice between two edges by a third is made by `both` and `either`, and from it
// the substitution, half by half.
#![tactic(auto)]

ghost use Rattle.std.specs.Prelude.{◌≡◌, get_or};
ghost use Rattle.diagrams.specs.Words as W;
ghost use Rattle.diagrams.specs.States as S;
ghost use Rattle.substitution.specs.Substitution as T;

use diagrams::Full;

// The arm g of a choice where f is true.
fn arm(f: u32, g: u32) -> u32
    ensures { result ≡ T.arm f g }
{
    if g == f {
        return 1;
    }
    if g == diagrams::flip(f, 1) {
        return 0;
    }
    g
}

// If f then g else h, by three conjunctions.
fn whole(w: &mut [u32], f: u32, g: u32, h: u32) -> Result<u32, Full>
    ensures { S.left w.new result ≡ T.whole (S.state_of w.old) f g h }
{
    let p = conjunction::both(w, f, g)?;
    let q = conjunction::both(w, diagrams::flip(f, 1), h)?;
    conjunction::either(w, p, q)
}

// If f then g else h, where f is not constant: one conjunction where an arm is constant.
fn of_arms(w: &mut [u32], f: u32, g: u32, h: u32) -> Result<u32, Full>
    ensures { S.left w.new result ≡ T.of_arms (S.state_of w.old) f g h }
{
    if g == h {
        return Ok(g);
    }
    if g == 1 {
        return conjunction::either(w, f, h);
    }
    if g == 0 {
        return conjunction::both(w, diagrams::flip(f, 1), h);
    }
    if h == 1 {
        return conjunction::either(w, diagrams::flip(f, 1), g);
    }
    if h == 0 {
        return conjunction::both(w, f, g);
    }
    whole(w, f, g, h)
}

// If f then g else h.
pub fn choice(w: &mut [u32], f: u32, g: u32, h: u32) -> Result<u32, Full>
    ensures { S.left w.new result ≡ T.choice (S.state_of w.old) f g h }
{
    if g == h {
        return Ok(g);
    }
    if f == 1 {
        return Ok(g);
    }
    if f == 0 {
        return Ok(h);
    }
    of_arms(w, f, arm(f, g), arm(diagrams::flip(f, 1), h))
}

// Edge v of a vector, 0 past its end.
fn edge_at(by: &[u32], v: u32) -> u32
    ensures { result ≡ get_or by.now v 0 }
{
    let i = v as usize;
    if i < by.len() { by[i] } else { 0 }
}

// Where edge e of node n leads where its variable is the constant x.
fn half(n: diagrams::Vertex, x: u32, e: u32) -> u32
    ensures { result ≡ T.half n x e }
{
    if x == 0 {
        return diagrams::flip(n.lo, e);
    }
    diagrams::flip(n.hi, e)
}

// The operand by which the cache knows a vector: 0 is that of the quantifier.
fn mark(tag: u32) -> u32
    ensures { result ≡ T.mark_of tag }
{
    (((tag as u64) + 1) % 4294967296) as u32
}

// If x then hi else lo, kept as the result for edge e without its complement; then the complement, if e is one.
fn finish_choice(w: &mut [u32], x: u32, hi: u32, lo: u32, e: u32, tag: u32) -> Result<u32, Full>
    ensures { S.left w.new result
        ≡ T.complement_if e (T.finished_choice (S.state_of w.old) x hi lo (W.flip e e) tag) }
{
    let r = choice(w, x, hi, lo)?;
    diagrams::keep(w, diagrams::flip(e, e), mark(tag), 1, r);
    Ok(diagrams::flip(r, e))
}

// The substitution in so many nested turns.
fn substituted_within(w: &mut [u32], e: u32, by: &[u32], tag: u32, turns: u32) -> Result<u32, Full>
    ensures { S.left w.new result ≡ T.substituted_within by.now tag turns (S.state_of w.old) e }
{
    if e < 2 {
        return Ok(e);
    }
    if turns == 0 {
        return Err(Full);
    }
    let n = diagrams::read(w, e / 2);
    let x = edge_at(by, n.var);
    if x < 2 {
        return substituted_within(w, half(n, x, e), by, tag, turns - 1);
    }
    if let Some(r) = conjunction::look_up(w, diagrams::flip(e, e), mark(tag), 1)? {
        return Ok(diagrams::flip(r, e));
    }
    let hi = substituted_within(w, n.hi, by, tag, turns - 1)?;
    let lo = substituted_within(w, n.lo, by, tag, turns - 1)?;
    finish_choice(w, x, hi, lo, e, tag)
}

// Edge e with the edge by[v] in place of each variable v. Equal tags mean equal vectors, until the cache is cleared.
pub fn substituted(w: &mut [u32], e: u32, by: &[u32], tag: u32) -> Result<u32, Full>
    ensures { S.left w.new result ≡ T.substituted by.now tag (S.state_of w.old) e }
{
    substituted_within(w, e, by, tag, 1280)
}
