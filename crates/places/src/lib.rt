// Places, numbers below 2 to the power n: how many of them a budget covers, and their bits as words.
#![tactic(auto)]

ghost use Rattle.std.specs.Prelude.{◌≡◌, cond, ◌^◌, ◌≤◌, min, leb};
ghost use Rattle.aiger.specs.Bits.{bit};

// The smaller of 2 to the power n and x.
pub fn end_of(n: usize, x: u64) -> u64
    ensures { result ≡ min (2 ^ n) x }
{
    if 63 < n {
        return x;
    }
    (1u64 << n).min(x)
}

// Whether x is not below 2 to the power n.
pub fn passes_all(n: usize, x: u64) -> bool
    ensures { result ≡ leb (2 ^ n) x }
{
    if 63 < n {
        return false;
    }
    1u64 << n <= x
}

// The smaller of 2 to the power n and d, a budget. It stands beside `end_of` for the clause that callers show.
pub fn tries(n: usize, d: u64) -> u64
    requires { d ≤ 4294967296 }
    ensures { result ≡ min (2 ^ n) d }
{
    end_of(n, d)
}

// Whether a budget of d covers 2 to the power n places. It stands beside `passes_all` for the clause that callers show.
pub fn covers(n: usize, d: u64) -> bool
    requires { d ≤ 4294967296 }
    ensures { result ≡ leb (2 ^ n) d }
{
    passes_all(n, d)
}

// Bit k of x.
pub fn bit_of(x: u64, k: usize) -> u32
    ensures { result ≡ cond (bit x k) 1 0 }
{
    if 63 < k {
        return 0;
    }
    let y = x >> k;
    (y % 2) as u32
}
