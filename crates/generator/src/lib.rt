// Knuth's MMIX generator: the one source of draws.
// Clause 11.7: multiplication modulo 2 to the 64 is a function of wrapping sums and shifts.
#![tactic(auto)]

ghost use Rattle.std.specs.Prelude.{◌≡◌, ◌*◌, ◌%◌, ◌^◌};
ghost use Rattle.aiger.specs.Signature as Signature;
ghost use Rattle.generator.specs.Draws.{started_at, drawn_by};

// The factor and the increment of a step.
const FACTOR: u64 = 6364136223846793005;

const INCREMENT: u64 = 1442695040888963407;

// A generator at its state.
#[derive(Clone, Copy)]
pub struct Generator {
    state: u64,
}

// What was drawn, and the generator after it.
#[derive(Clone, Copy)]
pub struct Draw {
    pub value: u64,
    pub generator: Generator,
}

// a * b, modulo 2^64.
fn wrapping_mul(a: u64, b: u64) -> u64
    ensures { result ≡ (a * b) % 2 ^ 64 }
{
    let mut sum: u64 = 0;
    let mut x = a;
    let mut y = b;
    // A test on y, which is halved until nothing is left of it.
    while y != 0 {
        if y & 1 == 1 {
            sum = std::num::wrapping_add_u64(sum, x);
        }
        x = std::num::wrapping_add_u64(x, x);
        y >>= 1;
    }
    sum
}

// The state after a step.
fn step(state: u64) -> u64
    ensures { result ≡ Signature.step state }
{
    std::num::wrapping_add_u64(wrapping_mul(state, FACTOR), INCREMENT)
}

impl Generator {
    // The generator with a seed as its state.
    pub fn seeded(seed: u64) -> Generator
        ensures { result ≡ started_at seed }
    {
        Generator { state: seed }
    }

    // One step. The draw is the state after it.
    pub fn draw(self) -> Draw
        ensures { result ≡ drawn_by self }
    {
        let value = step(self.state);
        let generator = Generator { state: value };
        Draw { value, generator }
    }
}
