// The sections of a binary AIGER file that differ from those of the text form: inputs without lines, latch lines without the latch's
// literal, and gates by differences.
#![tactic(auto)]

ghost use Rattle.std.specs.Prelude.{◌≡◌, ◌++◌, ◌+◌, ◌*◌, ◌≤◌, length, take, drop};
ghost use Rattle.std.proofs.lemmas.List.Edits.{sets};
ghost use Rattle.aiger.specs.Binary.{implied};
ghost use Rattle.binary.specs.Sections.{LatchesAt, latches_left, GateAt, GatesAt, gates_left};

use differences::Difference;
use lines::{Form, Rows};

// Stores the literals of n variables from variable v on, at word from of out.
pub fn store_implied(out: &mut [u32], from: usize, v: u32, n: usize)
    requires n_in_bounds { from + n ≤ length out.old }
    requires n_bound { v + n ≤ 10000 }
    ensures { out.new ≡ take from out.old ++ implied v n ++ drop (from + n) out.old }
{
    let mut var = v;
    let mut to = from;
    let mut left = n;
    while 0 < left {
        out[to] = 2 * var;
        var += 1;
        to += 1;
        left -= 1;
    }
}

// Reads n latch lines, and stores each latch as three words from word from of out on: its literal, by the variables from v on, the next
// literal, and the reset. Those before a malformed line are stored, and the literal of the latch that has it.
pub fn read_latches(
    s: &[u8],
    at: usize,
    n: usize,
    v: u32,
    limit: u32,
    out: &mut [u32],
    from: usize,
) -> Option<Rows>
    requires at_in_bounds { at ≤ length s.now }
    requires n_in_bounds { from + n * 3 ≤ length out.old }
    requires n_bound { v + n ≤ 10000 }
    ensures { LatchesAt s.now at n v limit out.old from out.new result
        × (out.new ≡ sets out.old from (latches_left limit v n (drop at s.now))) }
{
    let mut next = at;
    let mut fits = true;
    let mut var = v;
    let mut to = from;
    for _ in 0..n {
        out[to] = 2 * var;
        let form = Form {
            least: 1,
            most: 2,
            limit,
        };
        let line = lines::read_line(s, next, form, out, to + 1)?;
        next = line.next;
        fits = fits & line.fits;
        var += 1;
        to += 3;
    }
    Some(Rows { next, fits })
}

// Reads the gate with literal lit, stores it as three words at word to of out, and gives the position past it. Of a malformed gate nothing is stored.
fn read_gate(s: &[u8], at: usize, lit: u32, out: &mut [u32], to: usize) -> Option<usize>
    requires { to + 3 ≤ length out.old }
    ensures { GateAt s.now at lit out.old to out.new result }
{
    let Difference {
        value: first,
        next: middle,
    } = differences::read_difference(s, at)?;
    if first < 1 {
        return None;
    }
    if lit < first {
        return None;
    }
    let left = lit - first;
    let Difference {
        value: second,
        next,
    } = differences::read_difference(s, middle)?;
    if left < second {
        return None;
    }
    out[to] = lit;
    out[to + 1] = left;
    out[to + 2] = left - second;
    Some(next)
}

// Reads n gates, of the variables from v on, and stores each as three words from word from of out on. The answer is the
// position past them. Those before a malformed gate are stored.
pub fn read_gates(
    s: &[u8],
    at: usize,
    n: usize,
    v: u32,
    out: &mut [u32],
    from: usize,
) -> Option<usize>
    requires at_in_bounds { at ≤ length s.now }
    requires n_in_bounds { from + n * 3 ≤ length out.old }
    requires n_bound { v + n ≤ 10000 }
    ensures { GatesAt s.now at n v out.old from out.new result
        × (out.new ≡ sets out.old from (gates_left v n (drop at s.now))) }
{
    let mut next = at;
    let mut var = v;
    let mut to = from;
    for _ in 0..n {
        next = read_gate(s, next, 2 * var, out, to)?;
        var += 1;
        to += 3;
    }
    Some(next)
}
