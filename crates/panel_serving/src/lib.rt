// The loop of the resident program: each request is read, the files that it names are read, and what is printed is the reply of one turn.
//
// What is read and what is printed cannot be said in a contract. So it stands in values that only the functions can make that read and
// print: `panel_input::RequestLine`, `panel_fetching::Fetched` and `Told`. The contracts say that these belong to one turn. What stays from
// request to request, circuit memory and pins, and the totals of the requests, stand in a `Resident`, which only a turn can change.
#![tactic(auto)]

mod serving;
mod telling;
mod turning;

ghost use Rattle.std.specs.Prelude.{◌≤◌, length};
ghost use Rattle.panel_session.specs.Session.{SessionOf, start};
ghost use Rattle.panel_serving.specs.Serving.{Over, state_of, totals_of};

pub use turning::Turned;

// Answers requests until nothing more is to be had of the input. The answer is the last turn, with what stays.
pub fn session(rt: HostRuntime, work: &mut [u32], out: &mut [u8]) -> Turned
    requires { 32 ≤ length out.old }
    ensures session_of { SessionOf (length out.old) (record { memory = start.memory; work = work.old; pins = start.pins })
        (totals_of result.after.tally) (state_of result.after work.new) }
    ensures over { Over result }
{
    let mut t = turning::turn(rt, turning::begun(), work, out);
    while turning::goes_on(t) {
        t = turning::turn(rt, turning::after_of(t), work, out);
    }
    t
}
