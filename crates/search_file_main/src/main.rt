// The program of the command search: whether a bad line of a circuit can be true within a bound.
#![tactic(auto)]

ghost use Rattle.std.specs.Prelude.{◌≡◌, length};

use files::{note_front, say, say_front};
use search::Terms;

fn say_help(rt: HostRuntime) {
    say(rt, b"search FILE b k D\n\n");
    say(
        rt,
        b"Loads the AIGER 1.9 file FILE and searches frames 0 to k for a hit of bad line b, with a budget of D sequences\n",
    );
    say(rt, b"for each frame. Prints one of\n");
    say(
        rt,
        b"    found t   the first frame with a hit, and after that line the witness of its first hit\n",
    );
    say(
        rt,
        b"    none k    no frame from 0 to k has a hit; `no frame at all` on standard error says that none has one, however late\n",
    );
    say(
        rt,
        b"    spent t R frames before t have none; frame t has more than D sequences, and none of the first R, D or more, hits\n\n",
    );
    help::say_file_refusals(rt);
    help::say_refusals(rt, 10, 12);
    say(
        rt,
        b"\nExample: ./yunverok search examples/uart.aag 0 60 1048576\n",
    );
}

// Searches the circuit of the file that argument 1 names. No witness is longer than the output.
fn search_with(rt: HostRuntime, q: Terms, work: &mut [u32])
    requires { length work.old ≡ 1048576 }
{
    let mut file = [0u8; 65537];
    let mut m = [0u32; 33032];
    let mut out = [0u8; 66825];
    let mut line = [0u8; 128];
    let mut note = [0u8; 16];
    let got = files::read_argument(rt, 1, &mut file);
    if got.failed {
        return;
    }
    let n = got.count;
    let said = search_command::search(&file[..n], q, &mut m, work, &mut out, &mut line, &mut note);
    say_front(rt, &line, said.line);
    say_front(rt, &out, said.out);
    note_front(rt, &note, said.note);
}

// Lends the working memory of the greatest size, 65,536.
fn search_file(rt: HostRuntime, q: Terms) {
    let mut work = [0u32; 1048576];
    search_with(rt, q, &mut work);
}

// What the arguments ask: FILE b k D.
fn asked(rt: HostRuntime) -> Option<Terms> {
    if files::argument_count(rt) != 5 {
        return None;
    }
    let b = files::number_of(files::argument(rt, 2))?;
    let k = files::number_of(files::argument(rt, 3))?;
    let d = files::number_of(files::argument(rt, 4))?;
    Some(Terms { b, k, d })
}

fn main(rt: HostRuntime) {
    match asked(rt) {
        Some(q) => search_file(rt, q),
        None => say_help(rt),
    }
}
