// The words of a pinned circuit, from the words of the circuit and a user's pins.
#![tactic(auto)]

ghost use Rattle.std.specs.Prelude.{◌≡◌, cond, map, ℕ, ◌+◌, ◌≤◌, ◌<◌, length, get_or, set};
ghost use Rattle.aiger.specs.Circuit.{var};
ghost use Rattle.literals.specs.Literal.{literal, word_of};
ghost use Rattle.layout.specs.Words.{word, column, circuit_in};
ghost use Rattle.pins.specs.Pins.{is_held, pins_of, pin_of, constant_of, kept};
ghost use Rattle.pinning.specs.Free.{none_held, inputs_said};
ghost use Rattle.pinning.specs.Steps.{stored, heads, PinFits, Pinned};

use layout::Layout;
use literals::{Lit, Var};

// The pin of input i of a user.
pub fn pin_at(pins: &[u8], user: usize, i: usize) -> u8
    requires { (user ≤ 1) × (i < 256) }
    ensures { result ≡ pins_of pins.now user i }
{
    let at = 256 * user + i;
    if at < pins.len() {
        return pins[at];
    }
    2
}

// How many inputs the words of m say, at most 256.
fn inputs_said(m: &[u32]) -> usize
    ensures { result ≡ inputs_said m.now }
{
    if m.len() < 2 {
        return 0;
    }
    let n = m[1] as usize;
    if n <= 256 {
        return n;
    }
    256
}

// Whether a user leaves the first n inputs free.
fn first_free(pins: &[u8], user: usize, n: usize) -> bool
    requires { (user ≤ 1) × (n ≤ 256) }
    ensures { result ≡ none_held (pins_of pins.now user) n }
{
    for i in 0..n {
        if pin_at(pins, user, i) < 2 {
            return false;
        }
    }
    true
}

// Whether a user holds none of the inputs that the words of m say.
pub fn none_held(m: &[u32], pins: &[u8], user: usize) -> bool
    requires { user ≤ 1 }
    ensures { result ≡ none_held (pins_of pins.now user) (inputs_said m.now) }
{
    first_free(pins, user, inputs_said(m))
}

// Literal l, or the constant that it is, where the table gives the pins of the variables.
fn tie(table: &[u8], l: Lit) -> Lit
    ensures { result ≡ literal (constant_of (get_or table.now l.0.0 2) (word_of l)) }
{
    let v = l.0.0 as usize;
    if table.len() <= v {
        return l;
    }
    let p = table[v];
    if p < 2 {
        return Lit(Var(0), l.1 != (p == 1));
    }
    l
}

// The variable of the literal at a position.
fn variable_at(m: &[u32], at: usize) -> Var
    requires { at < length m.now }
    ensures { result ≡ (literal (word m.now at)).0 }
{
    Lit::from_word(m[at]).var()
}

// Enters the pins of the inputs into a table of pins by variable.
fn enter_pins(m: &[u32], inputs: usize, pins: &[u8], user: usize, table: &mut [u8])
    requires user_bound { (user ≤ 1) × (inputs ≤ 256) × (7 + inputs ≤ length m.now) }
    requires by_index { (i : ℕ) → i < inputs → var (word m.now (7 + i)) < length table.old }
    requires by_index_2 { (v : ℕ) → get_or table.old v 2 ≡ 2 }
    ensures { (v : ℕ) → get_or table.new v 2 ≡ pin_of (pins_of pins.now user) 0 (column m.now 7 1 inputs) v }
{
    let mut i = inputs;
    while 0 < i {
        i -= 1;
        let v = variable_at(m, 7 + i);
        let place = v.0 as usize;
        table[place] = pin_at(pins, user, i);
    }
}

// Stores l at a position where its pin leaves it free. The answer is the position past it.
fn keep_one(words: &mut [u32], at: usize, l: Lit, pin: u8) -> usize
    requires { (at < length words.old) × (word_of l < 4294967296) }
    ensures { (words.new ≡ cond (is_held pin) words.old (set words.old at (word_of l)))
        × (result ≡ cond (is_held pin) at (at + 1)) }
{
    if pin < 2 {
        return at;
    }
    words[at] = l.word() as u32;
    at + 1
}

// Stores the inputs that are free from position 7 on. The answer is the position past them.
fn keep_inputs(m: &[u32], inputs: usize, pins: &[u8], user: usize, words: &mut [u32]) -> usize
    requires { (user ≤ 1) × (inputs ≤ 256) × (7 + inputs ≤ length m.now) × (7 + inputs ≤ length words.old) }
    ensures { (words.new ≡ stored words.old 7 (kept (pins_of pins.now user) 0 (column m.now 7 1 inputs)))
        × (result ≡ 7 + length (kept (pins_of pins.now user) 0 (column m.now 7 1 inputs))) }
{
    let mut at: usize = 7;
    for i in 0..inputs {
        at = keep_one(words, at, Lit::from_word(m[7 + i]), pin_at(pins, user, i));
    }
    at
}

// Stores the counts, of which that of the inputs is n.
fn store_heads(m: &[u32], n: usize, words: &mut [u32])
    requires { (7 ≤ length m.now) × (7 ≤ length words.old) × (n ≤ 256) }
    ensures { words.new ≡ stored words.old 0 (heads m.now n) }
{
    words[0] = m[0];
    words[1] = n as u32;
    words[2] = m[2];
    words[3] = m[3];
    words[4] = m[4];
    words[5] = m[5];
    words[6] = m[6];
}

// Stores n words of m, from a position on, as what their literals are.
fn copy_tied(m: &[u32], from: usize, n: usize, table: &[u8], words: &mut [u32], at: usize)
    requires { (from + n ≤ length m.now) × (at + n ≤ length words.old) }
    ensures { words.new
        ≡ stored words.old at (map (λ l. constant_of (get_or table.now (var l) 2) l) (column m.now from 1 n)) }
{
    for j in 0..n {
        words[at + j] = tie(table, Lit::from_word(m[from + j])).word() as u32;
    }
}

// Writes the words of the pinned circuit to words, which are 0.
pub fn pin_circuit(
    m: &[u32],
    layout: Layout,
    pins: &[u8],
    user: usize,
    table: &mut [u8],
    words: &mut [u32],
)
    requires { PinFits m.now layout user table.old words.old }
    ensures { Pinned m.now (pins_of pins.now user) words.new }
{
    let inputs = layout.i;
    let from = layout.latches;
    let n = layout.end - from;
    enter_pins(m, inputs, pins, user, table);
    let next = keep_inputs(m, inputs, pins, user, words);
    store_heads(m, next - 7, words);
    copy_tied(m, from, n, table, words, next);
}
