// Existential quantification of the variables from a level on.
#![tactic(auto)]

ghost use Rattle.std.specs.Prelude.{◌≡◌};
ghost use Rattle.diagrams.specs.States as S;
ghost use Rattle.quantification.specs.Quantification as Q;

use diagrams::Full;

// The quantification in so many nested turns. An edge that is not constant takes both values, so one whose variable is at or past the level
// is true for some values.
fn exists_within(w: &mut [u32], e: u32, level: u32, turns: u32) -> Result<u32, Full>
    ensures { S.left w.new result ≡ Q.exists_within level turns (S.state_of w.old) e }
{
    if e < 2 {
        return Ok(e);
    }
    let n = diagrams::read(w, e / 2);
    if level <= n.var {
        return Ok(1);
    }
    if turns == 0 {
        return Err(Full);
    }
    if let Some(r) = conjunction::look_up(w, e, 0, 1)? {
        return Ok(r);
    }
    let lo = exists_within(w, diagrams::flip(n.lo, e), level, turns - 1)?;
    let hi = exists_within(w, diagrams::flip(n.hi, e), level, turns - 1)?;
    conjunction::finish(w, n.var, lo, hi, e, 0, 1)
}

// An edge that is true where e is true for some values of the variables from the level on.
pub fn exists(w: &mut [u32], e: u32, level: u32) -> Result<u32, Full>
    ensures { S.left w.new result ≡ Q.exists level (S.state_of w.old) e }
{
    exists_within(w, e, level, 1280)
}
