// One turn of the loop. The fields are this module's own, so that only a turn changes what stays, and only by the request that it answered.
ghost use Rattle.std.specs.Prelude.{◌≡◌, ◌+◌, ◌%◌, ◌<◌, ◌≤◌, length, take};
ghost use Rattle.panel_session.specs.Session.{no_totals, one_more, start};
ghost use Rattle.panel_input.specs.Line.{Received};
ghost use Rattle.panel_serving.specs.Serving.{Sized, Serves, Turns, GoesOn, state_of, totals_of, tallied};

use crate::serving::Served;
use crate::telling::Told;
use crate::{serving, telling};
use panel_input::RequestLine;

// How many requests were answered, how many bytes they had, and how many bytes were printed for them. The bytes are counted modulo 2^64.
#[derive(Clone, Copy)]
pub struct Tally {
    requests: u64,
    asked: u64,
    told: u64,
}

// What stays from request to request: the circuit memory of the greatest M, 4,096, the pins of both users, and the totals. No other module
// can change it, so that a pin is set by a turn alone.
#[derive(Clone, Copy)]
pub struct Resident {
    memory: [u32; 33032],
    pins: [u8; 512],
    tally: Tally,
}

// What was read of a request and its files, what was printed for it, and what stays.
#[derive(Clone, Copy)]
pub struct Turned {
    request: RequestLine,
    served: Served,
    after: Resident,
}

// No request was answered yet: there is no circuit, and all pins are free.
pub fn begun() -> Resident
    ensures { (result.memory ≡ start.memory) × (result.pins ≡ start.pins) × (totals_of result.tally ≡ no_totals) }
{
    Resident {
        memory: [4294967295u32; 33032],
        pins: [2u8; 512],
        tally: Tally {
            requests: 0,
            asked: 0,
            told: 0,
        },
    }
}

// The totals with a request that was answered.
fn counted(before: Tally, request: RequestLine, told: Told) -> Tally
    requires { before.requests < 18446744073709551615 }
    ensures { totals_of result ≡ one_more (totals_of before) request.count (told.response.count + told.response.out) }
{
    let asked = panel_input::count_of(request) as u64;
    let printed = telling::length_of(told);
    Tally {
        requests: before.requests + 1,
        asked: std::num::wrapping_add_u64(before.asked, asked),
        told: std::num::wrapping_add_u64(before.told, printed),
    }
}

// Answers a request that was read.
fn served(
    rt: HostRuntime,
    before: Resident,
    request: RequestLine,
    work: &mut [u32],
    out: &mut [u8],
) -> Turned
    requires { Sized before × Received request × (32 ≤ length out.old) × (before.tally.requests < 18446744073709551615) }
    ensures serves { Serves (take request.count request.line) (state_of before work.old) out.old result.served
        (state_of result.after work.new) out.new }
    ensures request_value { (result.request ≡ request) × Sized result.after
        × (totals_of result.after.tally
        ≡ one_more (totals_of before.tally) request.count (result.served.told.response.count + result.served.told.response.out)) }
{
    let line = panel_input::line_of(request);
    let n = panel_input::count_of(request);
    let mut memory = before.memory;
    let mut held = before.pins;
    let served = serving::serve(rt, &line[..n], &mut memory, work, &mut held, out);
    let told = served.told;
    let tally = counted(before.tally, request, told);
    Turned {
        request,
        served,
        after: Resident {
            memory,
            pins: held,
            tally,
        },
    }
}

// Reads a request and answers it, where there is one.
pub fn turn(rt: HostRuntime, before: Resident, work: &mut [u32], out: &mut [u8]) -> Turned
    requires { Sized before × (32 ≤ length out.old) × (before.tally.requests < 18446744073709551615) }
    ensures turns { Turns (state_of before work.old) out.old result (state_of result.after work.new) out.new }
    ensures tally_value { (totals_of result.after.tally ≡ tallied (totals_of before.tally) result.request result.served.told.response) × Received result.request
        × Sized result.after }
{
    let request = panel_input::receive(rt);
    if panel_input::has_failed(request) {
        let told = telling::answer_unread(rt, out);
        let fetched = panel_fetching::none();
        let tally = counted(before.tally, request, told);
        let memory = before.memory;
        let pins = before.pins;
        return Turned {
            request,
            served: Served { fetched, told },
            after: Resident {
                memory,
                pins,
                tally,
            },
        };
    }
    if panel_input::has_ended(request) {
        let told = telling::silence();
        let fetched = panel_fetching::none();
        return Turned {
            request,
            served: Served { fetched, told },
            after: before,
        };
    }
    served(rt, before, request, work, out)
}

pub fn after_of(t: Turned) -> Resident
    ensures { result ≡ t.after }
{
    t.after
}

// Whether more is to be had of the input, and a request more can be counted.
pub fn goes_on(t: Turned) -> bool
    ensures { GoesOn t result }
{
    let request = t.request;
    if panel_input::has_ended(request) {
        return false;
    }
    let after = t.after;
    let tally = after.tally;
    if tally.requests < u64::MAX {
        return true;
    }
    false
}
