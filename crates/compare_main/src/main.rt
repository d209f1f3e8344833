// The program compare: for each pair of outputs of two circuits, whether they are the same up to a bound, or a run that parts them.
#![tactic(auto)]

ghost use Rattle.std.specs.Prelude.{◌≡◌, ◌≤◌, ◌<◌, length};
ghost use Rattle.aiger.specs.Memory.{Holds};
ghost use Rattle.layout.specs.Words.{circuit_in};

use compare_command::Bounds;
use files::say;

fn say_help(rt: HostRuntime) {
    say(rt, b"compare OLD NEW k D\n\n");
    say(
        rt,
        b"Loads the AIGER 1.9 files OLD and NEW, the old trigger and the new one, which have the same numbers of inputs\n",
    );
    say(
        rt,
        b"and of outputs, and asks for each output j whether allowed runs of both on the same inputs part it in frames 0 to k,\n",
    );
    say(
        rt,
        b"with a budget of D sequences for each frame. Prints for each j one of\n",
    );
    say(
        rt,
        b"    output j: found t           the first frame in which they part, and after that line the witness of such runs:\n",
    );
    say(
        rt,
        b"                                the start of the old circuit's latches, then of the new one's, then the inputs\n",
    );
    say(
        rt,
        b"    output j: the same up to k  no allowed runs part it in frames 0 to k\n",
    );
    say(
        rt,
        b"    output j: spent t R         they do not part before frame t, nor in its first R sequences; there the budget was spent\n\n",
    );
    help::say_file_refusals(rt);
    help::say_refusals(rt, 11, 12);
    help::say_refusals(rt, 17, 17);
    say(
        rt,
        b"\nExample: ./yunverok compare crates/join_main/data/old.aag crates/join_main/data/new.aag 20 1048576\n",
    );
}

// Asks for each of n pairs of the joined circuit in m, up to a refusal.
fn say_pairs(
    rt: HostRuntime,
    m: &[u32],
    n: usize,
    q: Bounds,
    work: &mut [u32],
    out: &mut [u8],
    line: &mut [u8],
)
    requires { (n ≤ 16) × (0 < n → Holds m.now (circuit_in m.now)) × (128 ≤ length line.old) }
{
    let mut j: usize = 0;
    while j < n {
        let told = compare_command::compare(m, j as u32, q, work, out, line);
        let said = told.line;
        let witness = told.out;
        say(rt, &line[..said]);
        say(rt, &out[..witness]);
        if told.refused {
            return;
        }
        j += 1;
    }
}

// Joins the circuits of the files that arguments 1 and 2 name, and asks for each pair of outputs.
fn compare_with(
    rt: HostRuntime,
    q: Bounds,
    first: &mut [u32],
    second: &mut [u32],
    third: &mut [u32],
    work: &mut [u32],
)
    requires { (length first.old ≡ 33032) × (length second.old ≡ 33032) × (length third.old ≡ 33032) }
{
    let mut old = [0u8; 65537];
    let mut new = [0u8; 65537];
    let mut out = [0u8; 66825];
    let mut line = [0u8; 128];
    let from = files::read_argument(rt, 1, &mut old);
    if from.failed {
        return;
    }
    let to = files::read_argument(rt, 2, &mut new);
    if to.failed {
        return;
    }
    let n = from.count;
    let k = to.count;
    let joined = join_command::join_files(&old[..n], &new[..k], first, second, third, &mut line);
    let said = joined.line;
    say(rt, &line[..said]);
    say_pairs(rt, third, joined.pairs, q, work, &mut out, &mut line);
}

// Lends circuit memories, and the working memory of the greatest size, 65,536.
fn compare_files(rt: HostRuntime, q: Bounds) {
    let mut first = [0u32; 33032];
    let mut second = [0u32; 33032];
    let mut third = [0u32; 33032];
    let mut work = [0u32; 1048576];
    compare_with(rt, q, &mut first, &mut second, &mut third, &mut work);
}

// What the arguments ask: OLD NEW k D.
fn asked(rt: HostRuntime) -> Option<Bounds> {
    if files::argument_count(rt) != 5 {
        return None;
    }
    let k = files::number_of(files::argument(rt, 3))?;
    let d = files::number_of(files::argument(rt, 4))?;
    Some(Bounds { k, d })
}

fn main(rt: HostRuntime) {
    match asked(rt) {
        Some(q) => compare_files(rt, q),
        None => say_help(rt),
    }
}
