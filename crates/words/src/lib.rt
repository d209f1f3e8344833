// Words of 64 patterns: bit p of a word serves pattern p.
#![tactic(auto)]

ghost use Rattle.std.specs.Prelude.{◌≡◌, ℕ, ◌<◌, ◌+◌, ◌*◌};
ghost use Rattle.std.specs.Bool.{xor};
ghost use Rattle.aiger.specs.Bits.{bit};
ghost use Rattle.aiger.specs.Signature as Signature;

use generator::Generator;

// The lowest pattern in which a and b differ, 64 for equal words.
pub fn first_difference(a: u64, b: u64) -> u32
    ensures { Signature.FirstDifference 64 a b result }
{
    u64::trailing_zeros(a ^ b)
}

// The word, or its complement.
pub fn literal_word(a: u64, complemented: bool) -> u64
    ensures { (p : ℕ) → p < 64 → bit result p ≡ xor complemented (bit a p) }
{
    if complemented { !a } else { a }
}

const PATTERNS: [u64; 6] = [
    0xaaaa_aaaa_aaaa_aaaa,
    0xcccc_cccc_cccc_cccc,
    0xf0f0_f0f0_f0f0_f0f0,
    0xff00_ff00_ff00_ff00,
    0xffff_0000_ffff_0000,
    0xffff_ffff_0000_0000,
];

// Pattern p takes bit j of p.
pub fn pattern(j: usize) -> u64
    ensures { (p : ℕ) → p < 64 → bit result p ≡ bit p j }
{
    if j < 6 { PATTERNS[j] } else { 0 }
}

// Pattern p takes bit k of the number block * 64 + p: block after block, the patterns count up.
pub fn counting_word(k: usize, block: u64) -> u64
    ensures { (p : ℕ) → p < 64 → bit result p ≡ bit (block * 64 + p) k }
{
    if k < 6 {
        return pattern(k);
    }
    let s = k - 6;
    if 64 <= s {
        return 0;
    }
    if (block >> s) & 1 == 1 { u64::MAX } else { 0 }
}

// The state after i steps from state 1.
pub fn draw(i: u16) -> u64
    ensures { result ≡ Signature.draw i }
{
    let mut value: u64 = 1;
    let mut generator = Generator::seeded(value);
    for _ in 0..i {
        let drawn = generator.draw();
        value = drawn.value;
        generator = drawn.generator;
    }
    value
}

// The word of free bit j: it counts up for j below 6, and is a draw from 6 on.
pub fn pattern_word(j: u16) -> u64
    ensures { (p : ℕ) → p < 64 → bit result p ≡ Signature.pattern_bit j p }
{
    if 5 < j {
        return draw(j - 5);
    }
    pattern(usize::from(j))
}
