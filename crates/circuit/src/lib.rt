// Circuit memory: the test whether it holds a circuit, and the circuit's layout.
#![tactic(auto)]

ghost use Rattle.std.specs.Prelude.{◌≡◌, ◌≤◌, length};
ghost use Rattle.layout.specs.Layout.{PlacesOf};
ghost use Rattle.circuit.specs.Held.{Zeros, Shaped, Says, Tested, HeldIs, OrderLeft, counts_in};

use headers::Counts;
use layout::Layout;

// Whether every word from position from up to position to is 0.
fn are_zeros(m: &[u32], from: usize, to: usize) -> bool
    requires { to ≤ length m.now }
    ensures { Says result (Zeros m.now from to) }
{
    for i in from..to {
        if m[i] != 0 {
            return false;
        }
    }
    true
}

// The counts of a layout as those of a header.
fn counts_of(p: Layout) -> Counts
    ensures { result ≡ counts_in p }
{
    Counts {
        m: p.m as u64,
        i: p.i as u64,
        l: p.l as u64,
        o: p.o as u64,
        a: p.a as u64,
        b: p.b as u64,
        c: p.c as u64,
        j: 0,
        f: 0,
    }
}

// Whether the counts are within their limits, the needed words are there, and those after the content are 0.
fn is_shaped(m: &[u32], p: Layout) -> bool
    requires { PlacesOf m.now p }
    ensures { Says result (Shaped m.now) }
{
    if !headers::counts_fit(counts_of(p)) {
        return false;
    }
    let needed = 8 * (p.m + 1) + 256;
    if m.len() < needed {
        return false;
    }
    are_zeros(m, p.end, needed)
}

// The layout of the circuit that m holds; order then begins with its gates in an order of evaluation, and is after them as it was. Where m
// holds none, order is all 0.
pub fn held_in(m: &[u32], order: &mut [u32]) -> Option<Layout>
    requires { 3072 ≤ length order.old }
    ensures { HeldIs m.now order.new result × OrderLeft m.now order.old order.new result }
{
    if m.len() < 264 {
        variables::clear(order);
        return None;
    }
    let p = layout::layout_of(m);
    if !is_shaped(m, p) {
        variables::clear(order);
        return None;
    }
    match validity::check(m, order) {
        Ok(()) => Some(layout::with_starts(m, p)),
        Err(_) => None,
    }
}

// The test for number 9: whether m holds a circuit, and its layout.
pub fn test(m: &[u32]) -> Option<Layout>
    ensures { Tested m.now result }
{
    let mut order = [0u32; 3072];
    held_in(m, &mut order)
}
