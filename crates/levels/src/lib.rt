// The level of a wire over 64 runs and over blocks of them: 0 or 1 where all runs have it, else x.
#![tactic(auto)]

ghost use Rattle.std.specs.Prelude.{◌≡◌, not, cond, ◌<◌, length};
ghost use Rattle.aiger.specs.Bits.{bit};
ghost use Rattle.aiger.specs.Memory.{Holds};
ghost use Rattle.literals.specs.Literal.{literal};
ghost use Rattle.layout.specs.Words.{circuit_in};
ghost use Rattle.layout.specs.Layout.{LayoutOf};
ghost use Rattle.vcd.specs.Text.{level_byte};
ghost use Rattle.vcd.specs.Wires.{literals, literal_at};
ghost use Rattle.levels.specs.Levels.{level_over, after_byte};

use layout::Layout;
use literals::Lit;

// Of a latch's words the one with its own literal; its next literal and its reset stand after it.
const OWN: usize = 0;

// The literal of wire k: inputs, latches, and then outputs, bad lines and constraints, which stand one after the other.
pub fn literal_at(m: &[u32], layout: Layout, k: usize) -> Lit
    requires { Holds m.now (circuit_in m.now) × LayoutOf m.now layout × (k < length (literals (circuit_in m.now))) }
    ensures { result ≡ literal (literal_at (circuit_in m.now) k) }
{
    if k < layout.i {
        return Lit::from_word(m[7 + k]);
    }
    let j = k - layout.i;
    if j < layout.l {
        let latch = layout.latches + 3 * j + OWN;
        return Lit::from_word(m[latch]);
    }
    let at = layout.outputs + (j - layout.l);
    Lit::from_word(m[at])
}

// The character of the literal l of a variable with this word, over its 64 runs.
pub fn level_of(word: u64, l: Lit) -> u8
    ensures { result ≡ level_byte (level_over 64 (λ p. cond l.1 (not (bit word p)) (bit word p))) }
{
    let sign = l.1 as u8;
    if word == 0 {
        return b'0' + sign;
    }
    if word == 0xffff_ffff_ffff_ffff {
        return b'1' - sign;
    }
    b'x'
}

// The character after a block whose own is `new`, where `old` is that of the blocks before it.
pub fn after_block(block: u64, old: u8, new: u8) -> u8
    ensures { result ≡ after_byte block old new }
{
    if block == 0 {
        return new;
    }
    if old == new { new } else { b'x' }
}
