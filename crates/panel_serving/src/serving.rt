// A request that was read, and its answer.
ghost use Rattle.std.specs.Prelude.{◌≡◌, ◌≤◌, length};
ghost use Rattle.panel_serving.specs.Serving.{Serves};

use crate::telling;
use crate::telling::Told;
use panel_fetching::Fetched;

// What was read of the files of a request, and what was printed for it.
#[derive(Clone, Copy)]
pub struct Served {
    pub fetched: Fetched,
    pub told: Told,
}

// Answers a request that was read: reads the files that it names and prints the reply.
pub fn serve(
    rt: HostRuntime,
    request: &[u8],
    m: &mut [u32],
    work: &mut [u32],
    pins: &mut [u8],
    out: &mut [u8],
) -> Served
    requires { (length m.old ≡ 33032) × (32 ≤ length out.old) }
    ensures { Serves request.now
        (record { memory = m.old; work = work.old; pins = pins.old }) out.old result
        (record { memory = m.new; work = work.new; pins = pins.new }) out.new }
{
    let fetched = panel_fetching::fetch(rt, request);
    if panel_fetching::has_failed(fetched) {
        let told = telling::answer_unreadable(rt, request, out);
        return Served { fetched, told };
    }
    let old = files::content_of(panel_fetching::first_of(fetched));
    let new = files::content_of(panel_fetching::second_of(fetched));
    let first = input::bytes_of(old);
    let second = input::bytes_of(new);
    let n = input::size_of(old);
    let k = input::size_of(new);
    let told = telling::answer(rt, request, &first[..n], &second[..k], m, work, pins, out);
    Served { fetched, told }
}
