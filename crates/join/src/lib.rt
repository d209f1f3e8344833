// Join: two circuits with the same inputs into one, whose bad lines are true where the outputs of a pair differ.
#![tactic(auto)]

ghost use Rattle.std.specs.Prelude.{◌≡◌, ◌&&◌, ◌≤◌, leb, eqb, length};
ghost use Rattle.aiger.specs.File.{counts_fit};
ghost use Rattle.aiger.specs.Load.{needed};
ghost use Rattle.aiger.specs.Memory.{Holds, image};
ghost use Rattle.aiger.specs.Operations.{front};
ghost use Rattle.layout.specs.Layout.{LayoutOf};
ghost use Rattle.layout.specs.Words.{circuit_in};
ghost use Rattle.load.specs.Answers.{answered};
ghost use Rattle.load.specs.Steps.{header_meant};
ghost use Rattle.joined.specs.Joined.{joined, JoinedInto};
ghost use Rattle.pairing.specs.Words.{Small, variables, Joins};
ghost use Rattle.join.specs.Answers.{counts_of, RulingIs};

use layout::Layout;
use load::{Counts, LoadAnswer};
use refusals::Refusal;

// The counts of the joined circuit.
fn joined_counts(p: Layout, q: Layout) -> Counts
    requires { Small p × Small q }
    ensures { result ≡ counts_of p q }
{
    let constraints = p.c + q.c;
    let latches = p.l + q.l;
    let gates = p.a + q.a + 3 * p.o;
    let all = p.i + latches + gates;
    Counts {
        m: all as u32,
        i: p.i as u32,
        l: latches as u32,
        o: 0,
        a: gates as u32,
        b: p.o as u32,
        c: constraints as u32,
    }
}

// Whether the counts are within load's limits.
fn are_small(k: Counts) -> bool
    ensures { result ≡ counts_fit (header_meant k) }
{
    headers::counts_fit(headers::Counts {
        m: k.m as u64,
        i: k.i as u64,
        l: k.l as u64,
        o: k.o as u64,
        a: k.a as u64,
        b: k.b as u64,
        c: k.c as u64,
        j: 0,
        f: 0,
    })
}

// Whether there are 1 to 16 outputs, and the circuits have the same numbers of inputs and of outputs.
fn can_pair(p: Layout, q: Layout) -> bool
    ensures { result ≡ (leb 1 p.o && leb p.o 16 && eqb p.i q.i && eqb p.o q.o) }
{
    (1 <= p.o) & (p.o <= 16) & (p.i == q.i) & (p.o == q.o)
}

// The first of the tests 17, 3 and 4 that fails, or that all pass. room is the words of the third memory.
fn check_join(p: Layout, q: Layout, room: usize) -> Result<(), Refusal>
    requires { Small p × Small q }
    ensures { RulingIs p q room result }
{
    if !can_pair(p, q) {
        return Err(Refusal::Shape);
    }
    let k = joined_counts(p, q);
    if !are_small(k) {
        return Err(Refusal::Counts);
    }
    if room < 8 * (k.m as usize + 1) + 256 {
        return Err(Refusal::CircuitMemory);
    }
    Ok(())
}

// Joins the circuits in a and b, which can be joined, into m.
fn join_held(a: &[u32], p: Layout, b: &[u32], q: Layout, m: &mut [u32])
    requires holds { Holds a.now (circuit_in a.now) × LayoutOf a.now p × Holds b.now (circuit_in b.now) × LayoutOf b.now q }
    requires joins { Joins p q × (needed (variables p q) ≤ length m.old) }
    ensures { m.new ≡ front (image (joined (circuit_in a.now) (circuit_in b.now))) m.old }
{
    let mut first = [0u32; 4097];
    let mut second = [0u32; 4097];
    let latches = p.i + p.l + 1;
    let gates = p.i + p.l + q.l + 1;
    renumber::number_all(a, p, (p.i + 1) as u32, gates as u32, &mut first);
    renumber::number_all(b, q, latches as u32, (gates + p.a) as u32, &mut second);
    pairing::write_joined(a, p, &first, b, q, &second, m);
}

// The operation join: the circuits in first and second, which are read only, joined into third, as a load of the joined circuit leaves it.
pub fn join(first: &[u32], second: &[u32], third: &mut [u32]) -> LoadAnswer
    ensures { JoinedInto first.now second.now third.old (answered result) third.new }
{
    let Some(p) = circuit::test(first) else {
        return LoadAnswer::Refused(9);
    };
    let Some(q) = circuit::test(second) else {
        return LoadAnswer::Refused(9);
    };
    if let Err(e) = check_join(p, q, third.len()) {
        return LoadAnswer::Refused(e.number());
    }
    join_held(first, p, second, q, third);
    LoadAnswer::Loaded(joined_counts(p, q))
}
