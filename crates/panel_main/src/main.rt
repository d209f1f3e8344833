// The resident program: requests of two users, each a line of standard input, on one circuit memory, working memory and pin memory.
#![tactic(auto)]

ghost use Rattle.std.specs.Prelude.{◌≡◌, List, ℕ, length};
ghost use Rattle.panel_session.specs.Session.{SessionOf, start};
ghost use Rattle.panel_serving.specs.Serving.{Over, state_of, totals_of};

use files::say;
use panel_serving::Turned;
use std::alloc::AllocError;

fn say_help(rt: HostRuntime) {
    say(rt, b"panel\n\n");
    say(
        rt,
        b"Reads commands of two users from standard input, one to a line, and answers each. A command is the user's number, a verb and\n",
    );
    say(rt, b"its arguments, with one space between two words:\n");
    say(
        rt,
        b"    USER load FILE          loads a circuit for both users and frees all pins; user 0 alone may\n",
    );
    say(
        rt,
        b"    USER preview FILE       what a load would answer\n",
    );
    say(
        rt,
        b"    USER pin INPUT VALUE    holds an input at 0 or 1 for this user, or frees it (2)\n",
    );
    say(
        rt,
        b"    USER search b k D       searches bad line b up to bound k, under the user's pins\n",
    );
    say(
        rt,
        b"    USER search-from b t PLACE D      searches frame t alone, from a starting place on, under the user's pins\n",
    );
    say(
        rt,
        b"    USER fold b t           the hit of bad line b at frame t, under the user's pins, as a circuit\n",
    );
    say(
        rt,
        b"    USER write [binary]     the loaded circuit as text, or in binary form\n",
    );
    say(
        rt,
        b"    USER write FORM         the same by number: 0 for text, 1 for binary form\n",
    );
    say(
        rt,
        b"    USER replay WITNESS     whether the completions of a witness are hits under the user's pins\n",
    );
    say(
        rt,
        b"    USER widen WITNESS      the witness with x for the bits that may be either\n",
    );
    say(
        rt,
        b"    USER waveform WITNESS [inputs]    the run of a witness as a value change dump, all wires or the inputs alone\n",
    );
    say(
        rt,
        b"    USER join OLD NEW       joins the circuits of two files into the shared memory, as a load\n",
    );
    say(
        rt,
        b"    USER generate SEED I L A          a circuit drawn from a seed, as text; nothing is loaded\n\n",
    );
    say(
        rt,
        b"An answer is a line that has its length in bytes, and then so many bytes: what the command of this name prints, or\n",
    );
    say(
        rt,
        b"    malformed     the line is no command\n    unreadable    a file or the line itself cannot be read; standard error says why\n\n",
    );
    say(
        rt,
        b"The program ends with its input, or where eight reads of it fail in a row.\n",
    );
}

// The loop from the state in which sessions start.
fn session_with(rt: HostRuntime, work: &mut [u32], out: &mut [u8]) -> Turned
    requires out_len { length out.old ≡ 1572928 }
    requires work_value { work.old ≡ start.work }
    ensures session_of { SessionOf 1572928 start (totals_of result.after.tally) (state_of result.after work.new) }
    ensures over { Over result }
{
    panel_serving::session(rt, work, out)
}

// The working memory and the output of the greatest size, 65,536, as a session starts. No text is longer than this output: fold asks for
// 1,572,928 bytes at most, waveform for 1,456,223.
#[derive(Drop)]
struct Memories {
    work: Vec<u32>,
    out: Vec<u8>,
    ghost at_start: { (work.items ≡ start.work) × (length out.items ≡ 1572928) },
}

// Both memories stand on the heap, so that the stack is left to a turn.
fn lent_memories(rt: HostRuntime) -> Result<Memories, AllocError> {
    let work = Vec::from_elem(rt.alloc(), 0u32, 1048576)?;
    let out = Vec::from_elem(rt.alloc(), 0u8, 1572928)?;
    Ok(Memories { work, out })
}

// Lends both memories to the loop. What the working memory holds at the end is out of sight here.
fn session_of_both(rt: HostRuntime, lent: Memories) -> Turned
    ensures by_index { (work : List ℕ) × SessionOf 1572928 start (totals_of result.after.tally) (state_of result.after work) }
    ensures over { Over result }
{
    let Memories { mut work, mut out } = lent;
    session_with(rt, &mut work, &mut out)
}

fn main(rt: HostRuntime) -> Result<(), AllocError> {
    if files::argument_count(rt) != 1 {
        say_help(rt);
        return Ok(());
    }
    let lent = lent_memories(rt)?;
    session_of_both(rt, lent);
    Ok(())
}
