// The work of the search program: from what standard input holds to what is printed.
#![tactic(auto)]

ghost use Rattle.std.specs.Prelude.{◌≡◌, ◌++◌, ◌≤◌, length, take};
ghost use Rattle.aiger.specs.Lists.{same};
ghost use Rattle.aiger.specs.Text.{bytes};
ghost use Rattle.aiger.specs.Memory.{Holds};
ghost use Rattle.aiger.specs.Program.{Prints, refusal_line};
ghost use Rattle.layout.specs.Words.{circuit_in};
ghost use Rattle.search.specs.Chosen.{outcome_chosen, said};
ghost use Rattle.replies.specs.Reply.{Fronts};
ghost use Rattle.job.specs.Query.{query_of, FirstLineIs};
ghost use Rattle.job.specs.Replies.{said_text, told_length};
ghost use Rattle.job.specs.Job.{searched, Replied, Ran};

use lines::Row;
use load::LoadAnswer;
use replies::Report;
use search::SearchAnswer;

// A request: a bad line, a bound, a budget, and the position of the file.
#[derive(Clone, Copy)]
struct Query {
    b: u64,
    k: u64,
    d: u64,
    file: usize,
}

// What the first line of the input is.
#[derive(Clone, Copy)]
enum FirstLine {
    Search(Query),
    Malformed,
}

// Whether the input begins with `search` and a space.
fn is_search(input: &[u8]) -> bool
    ensures { result ≡ same (take 7 input.now) (bytes "search ") }
{
    if input.len() < 7 {
        return false;
    }
    &input[..7] == b"search ".as_slice()
}

fn query_of(list: &[u64; 3], file: usize) -> Query
    ensures { result ≡ query_of list.now file }
{
    Query {
        b: list[0],
        k: list[1],
        d: list[2],
        file,
    }
}

// Reads the line `search b k D`.
fn read_request(input: &[u8]) -> FirstLine
    ensures { FirstLineIs input.now result }
{
    if !is_search(input) {
        return FirstLine::Malformed;
    }
    let mut list = [0u64; 3];
    let Some(Row { count, next }) = lines::read_row(input, 7, 3, &mut list) else {
        return FirstLine::Malformed;
    };
    if count < 3 {
        return FirstLine::Malformed;
    }
    FirstLine::Search(query_of(&list, next))
}

// Writes what a search says to the front of line.
fn write_answer(line: &mut [u8], answer: SearchAnswer) -> usize
    requires { 32 ≤ length line.old }
    ensures { Fronts (said_text (said answer)) line.old result line.new }
{
    match answer {
        SearchAnswer::Found(t, _) => replies::write_line(line, b"found ", t),
        SearchAnswer::Nothing(k, _) => replies::write_line(line, b"none ", k),
        SearchAnswer::Spent(t, _) => replies::write_line(line, b"spent ", t),
        SearchAnswer::Refused(n) => replies::write_line(line, b"refused ", n),
    }
}

// Writes the line of a refusal.
fn refuse(line: &mut [u8], n: u32) -> Report
    requires { 32 ≤ length line.old }
    ensures { Fronts (refusal_line n) line.old result.line line.new × (result.out ≡ 0) }
{
    let length = replies::write_line(line, b"refused ", n);
    Report {
        line: length,
        out: 0,
    }
}

// The length of the witness that a search leaves: 0 where it finds no hit.
pub fn shown_length(answer: SearchAnswer) -> usize
    ensures { result ≡ told_length (said answer) }
{
    match answer {
        SearchAnswer::Found(_, length) => length as usize,
        SearchAnswer::Nothing(_, _) => 0,
        SearchAnswer::Spent(_, _) => 0,
        SearchAnswer::Refused(_) => 0,
    }
}

// Searches the circuit in m.
fn reply(m: &[u32], q: Query, work: &mut [u32], out: &mut [u8], line: &mut [u8]) -> Report
    requires { Holds m.now (circuit_in m.now) × (32 ≤ length line.old) }
    ensures { Replied
        (searched (circuit_in m.now) q.b q.k q.d (length work.old) (length out.old))
        work.old out.old line.old result work.new out.new line.new }
{
    let answer = search::search(m, q.b, q.k, q.d, work, out);
    let witness = shown_length(answer);
    let length = write_answer(line, answer);
    Report {
        line: length,
        out: witness,
    }
}

// Reads the request, loads the file and searches. What is to be printed is left at the fronts of line and out.
pub fn run(input: &[u8], m: &mut [u32], work: &mut [u32], out: &mut [u8], line: &mut [u8]) -> Report
    requires { (length m.old ≡ 8192) × (length work.old ≡ 8192) × (length out.old ≡ 2048) × (32 ≤ length line.old) }
    ensures ran { Ran input.now m.old work.old out.old line.old result m.new
        work.new out.new line.new }
    ensures prints { Prints outcome_chosen input.now (take result.line line.new ++ take result.out out.new) }
    ensures within { (result.line ≤ length line.new) × (result.out ≤ length out.new) }
{
    if 65536 < input.len() {
        return refuse(line, 1);
    }
    let FirstLine::Search(q) = read_request(input) else {
        return refuse(line, 11);
    };
    let at = q.file;
    match load::load(&input[at..], m) {
        LoadAnswer::Refused(n) => refuse(line, n),
        LoadAnswer::Loaded(_) => reply(m, q, work, out, line),
    }
}
