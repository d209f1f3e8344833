// What a C function tells stands in sixteen places of a lent answer, each with one meaning in all functions. Places that are not there
// are not written.
#![tactic(auto)]

ghost use Rattle.std.specs.Prelude.{◌≡◌, min};
ghost use Rattle.load.specs.Answers.{numbers};
ghost use Rattle.answer_places.specs.Places.{places_with, places, no_counts, overlaid};

use load::Counts;

// The smaller of two lengths.
fn smaller(a: usize, b: usize) -> usize
    ensures { result ≡ min a b }
{
    if a < b {
        return a;
    }
    b
}

// Puts a row of numbers in the places that are there.
fn put(row: &[u64], answer: &mut [u64])
    ensures { answer.new ≡ overlaid row.now answer.old }
{
    let count = smaller(row.len(), answer.len());
    let mut i: usize = 0;
    while i < count {
        answer[i] = row[i];
        i += 1;
    }
}

// Tells a kind, a frame, the length of a text and whether a none holds for every bound.
pub fn tell(kind: u64, frame: u64, len: u64, always: u64, answer: &mut [u64])
    ensures { answer.new ≡ overlaid (places kind frame len 0 no_counts always 0) answer.old }
{
    let row = [kind, frame, len, 0, 0, 0, 0, 0, 0, 0, 0, 0, always, 0, 0, 0];
    put(&row, answer);
}

// Tells a kind, a frame and the place that was reached in it.
pub fn tell_reached(kind: u64, frame: u64, reached: u64, answer: &mut [u64])
    ensures { answer.new ≡ overlaid (places_with kind frame 0 0 reached no_counts 0 0) answer.old }
{
    let row = [kind, frame, 0, 0, reached, 0, 0, 0, 0, 0, 0, 0, 0, 0, 0, 0];
    put(&row, answer);
}

// Tells the words that a circuit needs, its counts, and load's number.
pub fn tell_circuit(words: u64, k: Counts, number: u64, answer: &mut [u64])
    ensures { answer.new ≡ overlaid (places 0 0 0 words (numbers k) 0 number) answer.old }
{
    let m = k.m as u64;
    let i = k.i as u64;
    let l = k.l as u64;
    let o = k.o as u64;
    let a = k.a as u64;
    let b = k.b as u64;
    let c = k.c as u64;
    let row = [0, 0, 0, words, 0, m, i, l, o, a, b, c, 0, number, 0, 0];
    put(&row, answer);
}
