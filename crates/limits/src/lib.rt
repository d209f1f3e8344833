// Limits: the size for a bound, the length of a witness, and the tests that search and fold share.
#![tactic(auto)]

ghost use Rattle.std.specs.Prelude.{◌≡◌, ◌≤◌};
ghost use Rattle.aiger.specs.Operations.{budget_right};
ghost use Rattle.limits.specs.Limits.{Limited, size_of, length_of, LineIs, SizeIs, RulingIs};

use layout::Layout;
use refusals::Refusal;

// (k+1) × (I+A+C+1) + U + 1.
pub fn size(layout: Layout, k: usize) -> usize
    requires { Limited layout × (k ≤ 255) }
    ensures { result ≡ size_of layout k }
{
    (k + 1) * (layout.i + layout.a + layout.c + 1) + layout.u + 1
}

// The length of a witness for b of k + 1 frames.
pub fn witness_length(layout: Layout, b: u32, k: usize) -> usize
    requires { Limited layout × (k ≤ 255) }
    ensures { result ≡ length_of layout b k }
{
    let number = numbers::digit_count(b);
    3 + number + 1 + (layout.l + 1) + (k + 1) * (layout.i + 1) + 2
}

// Whether a budget is right.
pub fn is_budget(d: u64) -> bool
    ensures { result ≡ budget_right d }
{
    (1 <= d) & (d <= 4294967296)
}

// The first of the tests 10 and 11 that fails, or that both pass. budget is whether the budget is right.
pub fn check_line(layout: Layout, b: u64, k: u64, budget: bool) -> Result<(), Refusal>
    ensures { LineIs layout b k budget result }
{
    if layout.b as u64 <= b {
        return Err(Refusal::BadLine);
    }
    if 255 < k {
        return Err(Refusal::Bound);
    }
    if !budget {
        return Err(Refusal::Bound);
    }
    Ok(())
}

// Test 12: room is the words of working memory.
pub fn check_size(layout: Layout, k: usize, room: usize) -> Result<(), Refusal>
    requires { Limited layout × (k ≤ 255) }
    ensures { SizeIs layout k room result }
{
    let units = size(layout, k);
    if 65536 < units {
        return Err(Refusal::Size);
    }
    if room < 16 * units {
        return Err(Refusal::Size);
    }
    Ok(())
}

// The first of the tests 10, 11 and 12 that fails, or that all pass. budget is whether the budget is right, and room the words of
// working memory.
pub fn check_bounds(
    layout: Layout,
    b: u64,
    k: u64,
    budget: bool,
    room: usize,
) -> Result<(), Refusal>
    requires { Limited layout }
    ensures { RulingIs layout b k budget room result }
{
    check_line(layout, b, k, budget)?;
    check_size(layout, k as usize, room)
}
