// The program of the command search-from: whether a bad line of a circuit can be true at a frame, from a place on.
#![tactic(auto)]

ghost use Rattle.std.specs.Prelude.{◌≡◌, length};

use files::{say, say_front};
use place_limits::PlaceTerms;

fn say_help(rt: HostRuntime) {
    say(rt, b"search-from FILE b t PLACE D\n\n");
    say(
        rt,
        b"Loads the AIGER 1.9 file FILE and searches frame t for a hit of bad line b among its sequences from place PLACE on, in\n",
    );
    say(
        rt,
        b"counting order, the first of which is 0, with a budget of D sequences. Earlier frames do not count. Prints one of\n",
    );
    say(
        rt,
        b"    found t     and after that line the witness of the first hit at or after PLACE\n",
    );
    say(rt, b"    none t      no sequence from PLACE on hits\n");
    say(
        rt,
        b"    spent t R   more than D sequences are there from PLACE on, and none of those before place R hits: go on from R\n\n",
    );
    say(
        rt,
        b"PLACE is a number of up to 19 digits, at most 2 to the 62. Where `search FILE b k D` says `spent t R`, search-from with\n",
    );
    say(
        rt,
        b"the same b, with t and with place R goes on there.\n\n",
    );
    help::say_file_refusals(rt);
    help::say_refusals(rt, 10, 12);
    help::say_refusals(rt, 19, 19);
    say(
        rt,
        b"\nExample: ./yunverok search-from examples/uart.aag 0 20 1024 4096\n",
    );
}

// Searches the circuit of the file that argument 1 names. No witness is longer than the output.
fn search_with(rt: HostRuntime, q: PlaceTerms, work: &mut [u32])
    requires { length work.old ≡ 1048576 }
{
    let mut file = [0u8; 65537];
    let mut m = [0u32; 33032];
    let mut out = [0u8; 66825];
    let mut line = [0u8; 128];
    let got = files::read_argument(rt, 1, &mut file);
    if got.failed {
        return;
    }
    let n = got.count;
    let report = search_from_command::search_from(&file[..n], q, &mut m, work, &mut out, &mut line);
    say_front(rt, &line, report.line);
    say_front(rt, &out, report.out);
}

// Lends the working memory of the greatest size, 65,536.
fn search_file(rt: HostRuntime, q: PlaceTerms) {
    let mut work = [0u32; 1048576];
    search_with(rt, q, &mut work);
}

// What the arguments ask: FILE b t PLACE D.
fn asked(rt: HostRuntime) -> Option<PlaceTerms> {
    if files::argument_count(rt) != 6 {
        return None;
    }
    let b = files::number_of(files::argument(rt, 2))?;
    let t = files::number_of(files::argument(rt, 3))?;
    let place = files::place_of(files::argument(rt, 4))?;
    let d = files::number_of(files::argument(rt, 5))?;
    Some(PlaceTerms { b, t, place, d })
}

fn main(rt: HostRuntime) {
    match asked(rt) {
        Some(q) => search_file(rt, q),
        None => say_help(rt),
    }
}
