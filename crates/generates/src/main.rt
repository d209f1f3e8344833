// Clause 12.12: for each seven arguments `FILE SEED I L A k D` prints FILE, whether the text of SEED, I, L and A is that of FILE, and what a
// search of that text answers for its bad line, bound k and budget D, with the witness.
#![tactic(auto)]

ghost use Rattle.std.specs.Prelude.{◌≡◌, ◌≤◌, length};

use files::{say, say_front};
use search::Terms;

// What a row asks: a seed and counts, and a bound and a budget.
#[derive(Clone, Copy)]
struct Row {
    seed: u64,
    i: u64,
    l: u64,
    a: u64,
    k: u64,
    d: u64,
}

// The number that argument i is, 0 where it is none.
fn number(rt: HostRuntime, i: usize) -> u64 {
    files::number_of(files::argument(rt, i)).unwrap_or(0)
}

// The seed that argument i is, 0 where it is none.
fn seed(rt: HostRuntime, i: usize) -> u64 {
    files::seed_of(files::argument(rt, i)).unwrap_or(0)
}

// The row whose file argument i names.
fn row_at(rt: HostRuntime, i: usize) -> Row
    requires { i ≤ 1000000 }
{
    Row {
        seed: seed(rt, i + 1),
        i: number(rt, i + 2),
        l: number(rt, i + 3),
        a: number(rt, i + 4),
        k: number(rt, i + 5),
        d: number(rt, i + 6),
    }
}

// Whether a text is that of the file that argument i names.
fn say_stored(rt: HostRuntime, i: usize, text: &[u8]) {
    let mut file = [0u8; 65537];
    let got = files::read_argument(rt, i, &mut file);
    let n = got.count;
    if &file[..n] == text {
        say(rt, b"as stored\n");
        return;
    }
    say(rt, b"not as stored\n");
}

// Searches a text.
fn say_search(rt: HostRuntime, text: &[u8], k: u64, d: u64, work: &mut [u32])
    requires { length work.old ≡ 1048576 }
{
    let mut m = [0u32; 33032];
    let mut out = [0u8; 66825];
    let mut line = [0u8; 128];
    let mut note = [0u8; 16];
    let q = Terms { b: 0, k, d };
    let said = search_command::search(text, q, &mut m, work, &mut out, &mut line, &mut note);
    say_front(rt, &line, said.line);
    say_front(rt, &out, said.out);
}

// Makes the text of a row, whose file argument i names, and searches it.
fn say_row(rt: HostRuntime, i: usize, row: Row, work: &mut [u32])
    requires { length work.old ≡ 1048576 }
{
    let mut out = [0u8; 55798];
    let mut line = [0u8; 128];
    let report = generate_command::generate(row.seed, row.i, row.l, row.a, &mut out, &mut line);
    say_front(rt, &line, report.line);
    let n = report.out.min(out.len());
    say_stored(rt, i, &out[..n]);
    say_search(rt, &out[..n], row.k, row.d, work);
}

// Lends the working memory of the greatest size, 65,536.
fn say_at(rt: HostRuntime, i: usize)
    requires { i ≤ 1000000 }
{
    let mut work = [0u32; 1048576];
    files::say_argument(rt, i, b"\n");
    say_row(rt, i, row_at(rt, i), &mut work);
}

fn main(rt: HostRuntime) {
    let count = files::argument_count(rt);
    let mut i: usize = 1;
    while i < count {
        if 1000000 < i {
            return;
        }
        say_at(rt, i);
        i += 7;
    }
}
