// Witnesses under the pins of a user: the pin of each byte of a body, which is the lines of a witness after line `b`. A user's pins are
// lent as the bytes of that user alone; an input that has no byte is free.
#![tactic(auto)]

ghost use Rattle.std.specs.Prelude.{◌≡◌, ◌+◌, ◌*◌, ◌≤◌, length, get_or, take, drop};
ghost use Rattle.aiger.specs.Lists.{every_below};
ghost use Rattle.pinned_runs.specs.Places.{place_pin, agrees_at, settled_byte, Settled, own_of};

use layout::Layout;

// Where the rows of a body stand: from first to end, each with a byte for each input and one that ends it.
#[derive(Clone, Copy)]
pub struct Rows {
    pub first: usize,
    pub inputs: usize,
    pub end: usize,
}

// Where the bytes of a user stand among those of both.
#[derive(Clone, Copy)]
pub struct Own {
    pub from: usize,
    pub to: usize,
}

// The bytes of a user among `len` bytes of pins: 256 for each user, where there are so many.
pub fn own_bytes(len: usize, user: u32) -> Own
    requires { user ≤ 1 }
    ensures { result ≡ own_of len user }
{
    let start = 256 * user as usize;
    if len <= start {
        return Own { from: len, to: len };
    }
    if len - start <= 256 {
        return Own {
            from: start,
            to: len,
        };
    }
    Own {
        from: start,
        to: start + 256,
    }
}

// The rows of a body with so many frames.
pub fn rows_of(layout: Layout, frames: usize) -> Rows
    requires { (layout.l ≤ 1024) × (layout.i ≤ 256) × (frames ≤ 256) }
    ensures { result ≡ record { first = layout.l + 1; inputs = layout.i; end = layout.l + 1 + frames * (layout.i + 1) } }
{
    let first = layout.l + 1;
    let inputs = layout.i;
    Rows {
        first,
        inputs,
        end: first + frames * (inputs + 1),
    }
}

// The pin of byte k of a body: 2 where no input stands.
pub fn pin_of(rows: Rows, own: &[u8], k: usize) -> u8
    requires { rows.inputs ≤ 256 }
    ensures { result ≡ place_pin (λ i. get_or own.now i 2) rows.first rows.inputs rows.end k }
{
    if k < rows.first {
        return 2;
    }
    if rows.end <= k {
        return 2;
    }
    let column = (k - rows.first) % (rows.inputs + 1);
    if rows.inputs <= column {
        return 2;
    }
    if own.len() <= column {
        return 2;
    }
    own[column]
}

// Whether a byte has the value of its pin; loose is whether `x` will do too.
fn agrees(pin: u8, byte: u8, loose: bool) -> bool
    ensures { result ≡ agrees_at loose pin byte }
{
    if 1 < pin {
        return true;
    }
    if byte == b'x' {
        return loose;
    }
    if byte == b'1' {
        return pin == 1;
    }
    pin == 0
}

// Whether all bytes of a body have the values of their pins; where `loose`, an x agrees with every pin.
pub fn agree(rows: Rows, own: &[u8], body: &[u8], loose: bool) -> bool
    requires { rows.inputs ≤ 256 }
    ensures { result
        ≡ every_below (length body.now)
        (λ k. agrees_at loose (place_pin (λ i. get_or own.now i 2) rows.first rows.inputs rows.end k)
        (get_or body.now k 0)) }
{
    let mut k = 0;
    while k < body.len() {
        let pin = pin_of(rows, own, k);
        if !agrees(pin, body[k], loose) {
            return false;
        }
        k += 1;
    }
    true
}

// A byte, or the pin's bit for an `x` that is held.
fn settle(pin: u8, byte: u8) -> u8
    ensures { result ≡ settled_byte pin byte }
{
    if 1 < pin {
        return byte;
    }
    if byte == b'x' {
        return b'0' + pin;
    }
    byte
}

// Copies a body to the front of `copy`, with the pin's bit for each `x` that is held.
pub fn copy_settled(rows: Rows, own: &[u8], body: &[u8], copy: &mut [u8])
    requires { (rows.inputs ≤ 256) × (length body.now ≤ length copy.old) }
    ensures { Settled (place_pin (λ i. get_or own.now i 2) rows.first rows.inputs rows.end) body.now
        (take (length body.now) copy.new)
        × (drop (length body.now) copy.new ≡ drop (length body.now) copy.old) }
{
    let mut k = 0;
    while k < body.len() {
        let pin = pin_of(rows, own, k);
        copy[k] = settle(pin, body[k]);
        k += 1;
    }
}
