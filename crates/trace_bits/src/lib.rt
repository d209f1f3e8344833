// The free bits of a sequence, from a start state and the rows of its frames.
#![tactic(auto)]

ghost use Rattle.std.specs.Prelude.{◌≡◌, ℕ, ◌+◌, ◌*◌, ◌≤◌, ◌<◌, length, get_or};
ghost use Rattle.aiger.specs.Bits.{nonzero};
ghost use Rattle.transitions.specs.Transitions.{rank_in};
ghost use Rattle.set_attempt.specs.Bits.{input_value, free_value};

// Where x is found first in a list, or the length of the list.
pub fn rank_of(list: &[u32], x: u32) -> usize
    ensures { result ≡ rank_in list.now x }
{
    for (k, y) in list.iter().enumerate() {
        if *y == x {
            return k;
        }
    }
    list.len()
}

// The value of input i in row r of the inputs that matter.
fn input_word(inputs: &[u32], r: u32, i: u32) -> u32
    requires { length inputs.now ≤ 4 }
    ensures { nonzero result ≡ input_value inputs.now r i }
{
    let count = inputs.len();
    let k = rank_of(inputs, i);
    if k < count {
        return places::bit_of(u64::from(r), count - (k + 1));
    }
    0
}

// The word of variable v of a state.
fn bit_at(bits: &[u32], v: u32) -> u32
    ensures { result ≡ get_or bits.now v 0 }
{
    memory::get(bits, v as usize)
}

// Free bit j of the sequence.
pub fn free_word(
    frees: &[u32],
    bits: &[u32],
    inputs: &[u32],
    trace: &[u32],
    width: usize,
    j: usize,
) -> u32
    requires { (length inputs.now ≤ 4) × (width ≤ 65536) × (length frees.now ≤ j → 0 < width) }
    ensures { nonzero result ≡ free_value frees.now bits.now inputs.now trace.now width j }
{
    let count = frees.len();
    if j < count {
        return bit_at(bits, frees[j]);
    }
    let k = j - count;
    let r = memory::get(trace, k / width);
    input_word(inputs, r, (k % width) as u32)
}

// Writes the first n free bits.
pub fn put_bits(
    frees: &[u32],
    bits: &[u32],
    inputs: &[u32],
    trace: &[u32],
    width: usize,
    n: usize,
    work: &mut [u32],
)
    requires { (length inputs.now ≤ 4) × (width ≤ 65536) × (length frees.now < n → 0 < width) × (n ≤ length work.old) }
    ensures { (j : ℕ) → j < n → nonzero (get_or work.new j 0)
        ≡ free_value frees.now bits.now inputs.now trace.now width j }
{
    for j in 0..n {
        work[j] = free_word(frees, bits, inputs, trace, width, j);
    }
}
