// The words of a freed circuit: those of a circuit, with every latch as its own reset.
#![tactic(auto)]

ghost use Rattle.std.specs.Prelude.{◌≡◌, ◌+◌, ◌*◌, ◌≤◌, length};
ghost use Rattle.aiger.specs.Memory.{Holds};
ghost use Rattle.layout.specs.Words.{circuit_in};
ghost use Rattle.never_search.specs.Runs.{freed};
ghost use Rattle.freeing.specs.Steps.{Copied, Reset, FreeFits};

use layout::Layout;

// Copies the first n words.
fn copy_words(m: &[u32], n: usize, words: &mut [u32])
    requires { (n ≤ length m.now) × (n ≤ length words.old) }
    ensures { Copied m.now n words.old words.new }
{
    words[..n].copy_from_slice(&m[..n]);
}

// Gives each of so many latches, whose words begin at `at`, itself as its reset.
fn free_resets(words: &mut [u32], at: usize, count: usize)
    requires { (at + 3 * count ≤ length words.old) × (count ≤ 1024) }
    ensures { Reset at count words.old words.new }
{
    for j in 0..count {
        let place = at + 3 * j;
        words[place + 2] = words[place];
    }
}

// Writes the words of the freed circuit to words, which are 0.
pub fn free_circuit(m: &[u32], layout: Layout, words: &mut [u32])
    requires { FreeFits m.now layout words.old }
    ensures { Holds words.new (freed (circuit_in m.now)) }
{
    copy_words(m, layout.end, words);
    free_resets(words, layout.latches, layout.l);
}
