// Loads the file of each row of a table into a circuit memory of so many words, writes what was loaded, and prints both answers. Each
// argument is a row: a number of words, a space, and the name of a file.
#![tactic(auto)]

ghost use Rattle.input.specs.Reading.{IsPrefixLen};

use files::{say, say_front};
use load::LoadAnswer;
use numbers::Number;
use write::WriteAnswer;

fn say_number(rt: HostRuntime, n: u64) {
    say(rt, b" ");
    files::say_number(rt, n);
}

fn say_counts(rt: HostRuntime, c: load::Counts) {
    say(rt, b" loaded");
    say_number(rt, c.m as u64);
    say_number(rt, c.i as u64);
    say_number(rt, c.l as u64);
    say_number(rt, c.o as u64);
    say_number(rt, c.a as u64);
    say_number(rt, c.b as u64);
    say_number(rt, c.c as u64);
}

fn say_refused(rt: HostRuntime, n: u32) {
    say(rt, b" ");
    files::say_refused(rt, n);
}

// Prints the length of a text, and the text where that is below 200.
fn say_text(rt: HostRuntime, n: usize, out: &[u8]) {
    say(rt, b" written");
    say_number(rt, n as u64);
    say(rt, b"\n");
    if n < 200 {
        say_front(rt, out, n);
    }
}

fn say_written(rt: HostRuntime, m: &[u32], out: &mut [u8]) {
    match writer::write(m, 0, out) {
        WriteAnswer::Length(n) => say_text(rt, n, out),
        WriteAnswer::Refused(n) => say_refused(rt, n),
    }
}

fn say_loaded(rt: HostRuntime, file: &[u8], m: &mut [u32], out: &mut [u8]) {
    match load::load(file, m) {
        LoadAnswer::Loaded(c) => {
            say_counts(rt, c);
            say_written(rt, m, out);
        }
        LoadAnswer::Refused(n) => say_refused(rt, n),
    }
}

// A number of words, or how many there are where that is smaller.
fn at_most(words: u64, m: &[u32]) -> usize
    ensures { IsPrefixLen result m.now }
{
    if words < m.len() as u64 {
        return words as usize;
    }
    m.len()
}

fn say_row(rt: HostRuntime, row: &[u8], m: &mut [u32], file: &mut [u8], out: &mut [u8]) {
    let Some(Number::Spaced(words, at)) = numbers::read_number(row, 0) else {
        return;
    };
    if row.len() < at {
        return;
    }
    say(rt, row);
    let got = files::read_named(rt, &row[at..], file);
    if got.failed {
        return;
    }
    let n = got.count;
    let k = at_most(words, m);
    say_loaded(rt, &file[..n], &mut m[..k], out);
}

fn say_argument(rt: HostRuntime, i: usize, m: &mut [u32], file: &mut [u8], out: &mut [u8]) {
    let mut row = [0u8; 4096];
    let n = files::argument_text(rt, i, &mut row);
    say_row(rt, &row[..n], m, file, out);
}

fn say_table(rt: HostRuntime, m: &mut [u32], file: &mut [u8], out: &mut [u8]) {
    let count = files::argument_count(rt);
    let mut i: usize = 1;
    while i < count {
        say_argument(rt, i, m, file, out);
        i += 1;
    }
}

fn main(rt: HostRuntime) {
    let mut m = [0u32; 33040];
    let mut file = [0u8; 65537];
    let mut out = [0u8; 65536];
    say_table(rt, &mut m, &mut file, &mut out);
}
