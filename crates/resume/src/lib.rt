// A sequence as words, one for each of its free bits, and its place among those over the support of a graph's root: with this an
// enumeration goes on where another search has come to, and its end is told as a sequence.
#![tactic(auto)]

ghost use Rattle.std.specs.Prelude.{◌≡◌, cond, ◌&&◌, ◌+◌, ◌*◌, ◌≤◌, min, length};
ghost use Rattle.aiger.specs.Bits.{nonzero, bit};
ghost use Rattle.nodes.specs.Store.{Sized};
ghost use Rattle.resume.specs.Resume.{place_of, Copied, Spread};

use nodes::Graph;

// Copies the first n words.
pub fn copy_bits(from: &[u32], n: usize, to: &mut [u32])
    requires { (n ≤ length from.now) × (n ≤ length to.old) }
    ensures { Copied from.now n to.old to.new }
{
    for i in 0..n {
        to[i] = from[i];
    }
}

// The place with one free bit more; 2 to the power 32 where it is not below.
fn next_place(y: u64, mark: u32, digit: u32) -> u64
    requires { y ≤ 4294967296 }
    ensures { result ≡ cond (nonzero mark) (min 4294967296 (2 * y + cond (nonzero digit) 1 0)) y }
{
    if mark == 0 {
        return y;
    }
    if 2147483648 <= y {
        return 4294967296;
    }
    if digit == 0 { 2 * y } else { 2 * y + 1 }
}

// How many places of the support lie before the sequence; 2 to the power 32 where there are no fewer.
pub fn place_of(work: &[u32], g: Graph, bits: &[u32]) -> u64
    requires sized { Sized g (length work.now) }
    requires free_in_bounds { g.free ≤ length bits.now }
    ensures { result ≡ min 4294967296 (place_of work.now bits.now g.free) }
{
    let free = g.free;
    let mut y = 0;
    for v in 0..free {
        let mark = work[16 * (v + 1) + 10];
        y = next_place(y, mark, bits[v]);
    }
    y
}

// Bit r of y, if the mark is not 0.
fn marked_bit(y: u64, mark: u32, r: usize) -> u32
    ensures { result ≡ cond (nonzero mark && bit y r) 1 0 }
{
    if mark == 0 {
        return 0;
    }
    places::bit_of(y, r)
}

// One more, if the mark is not 0.
fn next_rank(r: usize, mark: u32) -> usize
    requires { r ≤ 65536 }
    ensures { result ≡ r + cond (nonzero mark) 1 0 }
{
    if mark == 0 { r } else { r + 1 }
}

// The sequence at place y of the support.
pub fn spread_bits(work: &[u32], g: Graph, y: u64, bits: &mut [u32])
    requires sized { Sized g (length work.now) }
    requires free_in_bounds { g.free ≤ length bits.old }
    ensures { Spread work.now y g.free bits.old bits.new }
{
    let free = g.free;
    let mut r = 0;
    for u in (0..free).rev() {
        let mark = work[16 * (u + 1) + 10];
        bits[u] = marked_bit(y, mark, r);
        r = next_rank(r, mark);
    }
}
