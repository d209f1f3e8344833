// The witness of a pinned circuit written out for all inputs where it stands: each row gets the values of the pins that hold. The longer
// rows are written from the last byte to the first, so that every bit is read before its place is written over.
#![tactic(auto)]

ghost use Rattle.std.specs.Prelude.{◌≡◌, cond, ℕ, ◌+◌, ◌≤◌, ◌<◌, eqb, length, get_or};
ghost use Rattle.aiger.specs.Witness.{bit_line};
ghost use Rattle.aiger.specs.Operations.{front};
ghost use Rattle.pins.specs.Pins.{is_held, pins_of, fill, free_inputs};
ghost use Rattle.pinning.specs.Steps.{stored};
ghost use Rattle.expansion.specs.Rows.{byte_of, bits_at, rows_text, expanded};

fn byte_of(bit: bool) -> u8
    ensures { result ≡ byte_of bit }
{
    if bit { b'1' } else { b'0' }
}

// Whether the byte at a position of a text is the digit 1.
fn is_one(text: &[u8], at: usize) -> bool
    ensures { result ≡ eqb (get_or text.now at 0) 49 }
{
    if at < text.len() {
        return text[at] == b'1';
    }
    false
}

// The byte of an input: its pin's value, or the bit at a position of the text.
fn expand_bit(text: &[u8], at: usize, pin: u8) -> u8
    ensures { result ≡ cond (is_held pin) (byte_of (eqb pin 1)) (byte_of (eqb (get_or text.now at 0) 49)) }
{
    if pin < 2 {
        return byte_of(pin == 1);
    }
    byte_of(is_one(text, at))
}

// How many bits of the shorter row an input has.
fn bits_of(pin: u8) -> usize
    ensures { result ≡ cond (is_held pin) 0 1 }
{
    if pin < 2 {
        return 0;
    }
    1
}

// How many of the first n inputs are free.
pub fn free_inputs(pins: &[u8], user: usize, n: usize) -> usize
    requires { (user ≤ 1) × (n ≤ 256) }
    ensures { result ≡ free_inputs (pins_of pins.now user) n }
{
    let mut count: usize = 0;
    for i in 0..n {
        count += bits_of(pinning::pin_at(pins, user, i));
    }
    count
}

// Writes the row of all inputs, whose n free ones stand at `from`, to position `at`.
fn expand_row(
    out: &mut [u8],
    from: usize,
    at: usize,
    inputs: usize,
    n: usize,
    pins: &[u8],
    user: usize,
)
    requires { (user ≤ 1) × (inputs ≤ 256) × (from ≤ at) × (at + inputs < length out.old) × (n ≡ free_inputs (pins_of pins.now user) inputs) }
    ensures { out.new
        ≡ stored out.old at (bit_line (fill (pins_of pins.now user) (bits_at out.old from) 0 0 inputs)) }
{
    let mut j = n;
    let mut i = inputs;
    while 0 < i {
        i -= 1;
        let pin = pinning::pin_at(pins, user, i);
        j -= bits_of(pin);
        let byte = expand_bit(out, from + j, pin);
        out[at + i] = byte;
    }
    out[at + inputs] = b'\n';
}

// Writes the rows of frames 0 to t, whose n free inputs stand as lines at `start`, and the line that ends a witness to that position.
fn expand_rows(
    out: &mut [u8],
    start: usize,
    t: usize,
    inputs: usize,
    n: usize,
    pins: &[u8],
    user: usize,
)
    requires { (user ≤ 1) × (inputs ≤ 256) × (t ≤ 255)
        × (start + length (rows_text out.old (pins_of pins.now user) inputs start (t + 1)) ≤ length out.old)
        × (n ≡ free_inputs (pins_of pins.now user) inputs) }
    ensures { out.new
        ≡ stored out.old start (rows_text out.old (pins_of pins.now user) inputs start (t + 1)) }
{
    let end = start + (t + 1) * (inputs + 1);
    let mut from = start + (t + 1) * (n + 1);
    let mut at = end;
    let mut u = t + 1;
    while 0 < u {
        u -= 1;
        from -= n + 1;
        at -= inputs + 1;
        expand_row(out, from, at, inputs, n, pins, user);
    }
    out[end] = b'.';
    out[end + 1] = b'\n';
}

// Writes out the witness whose shorter form stands at the front of out. Its rows begin at `start`.
pub fn expand(out: &mut [u8], start: usize, t: usize, inputs: usize, pins: &[u8], user: usize)
    requires { (user ≤ 1) × (inputs ≤ 256) × (t ≤ 255)
        × (start + length (rows_text out.old (pins_of pins.now user) inputs start (t + 1)) ≤ length out.old) }
    ensures { out.new
        ≡ front (expanded out.old (pins_of pins.now user) inputs start (t + 1)) out.old }
{
    let n = free_inputs(pins, user, inputs);
    expand_rows(out, start, t, inputs, n, pins, user);
}
