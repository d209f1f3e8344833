// The operation generate: the text of a circuit that is made from a seed and counts.
// Clause 12.12: the same seed and counts give the same bytes. The draws are made twice: for the length of the text, and for the text.
#![tactic(auto)]

ghost use Rattle.std.specs.Prelude.{◌≡◌, ◌+◌, ◌*◌, ◌≤◌, ◌<◌, [], ◌∷◌, length};
ghost use Rattle.aiger.specs.Text.{digits};
ghost use Rattle.aiger.specs.Write.{line_of};
ghost use Rattle.aiger.specs.Operations.{front};
ghost use Rattle.output.specs.Output.{Room, Placed};
ghost use Rattle.generated.specs.Generated.{few_enough, counts_permitted, generated_text, Generated, Permitted};
ghost use Rattle.generated.specs.Parts.{head_text, inputs_text, latches_text, bad_text, gates_text};
ghost use Rattle.generate.specs.Steps.{choice, operands_of, past_latches, Numbers, LatchesPut, PermittedCounts, text_of};
ghost use Rattle.generate.specs.Answer.{answered};

use generator::Generator;

// How many inputs, latches and gates are asked for.
#[derive(Clone, Copy)]
struct Counts {
    inputs: u32,
    latches: u32,
    gates: u32,
}

// A literal that was drawn, and the generator after it.
#[derive(Clone, Copy)]
struct Choice {
    literal: u32,
    generator: Generator,
}

// The operands of a gate that were drawn, and the generator after them.
#[derive(Clone, Copy)]
struct Operands {
    left: u32,
    right: u32,
    generator: Generator,
}

// A position in the text, and the generator there.
#[derive(Clone, Copy)]
struct Place {
    at: usize,
    generator: Generator,
}

// The length of the text, or the number of the refusal.
#[derive(Clone, Copy)]
pub enum GenerateAnswer {
    Length(u32),
    Refused(u32),
}

// Whether each count by itself is permitted.
fn few_enough(i: u64, l: u64, a: u64) -> bool
    ensures { result ≡ few_enough i l a }
{
    (i <= 256) & (l <= 1024) & (a <= 3072)
}

// Whether the counts are permitted. Their sum is made only where none of them is large.
fn permits(i: u64, l: u64, a: u64) -> bool
    ensures { result ≡ counts_permitted i l a }
{
    if !few_enough(i, l, a) {
        return false;
    }
    (i + l + a <= 4096) & (1 <= i + l) & (1 <= a)
}

// Takes a draw: its upper 32 bits choose one of the n literals from 0 on.
fn choose(before: Generator, n: u32) -> Choice
    requires { 0 < n }
    ensures { result ≡ choice before n }
{
    let drawn = before.draw();
    let upper = drawn.value >> 32;
    let literal = (upper % n as u64) as u32;
    let generator = drawn.generator;
    Choice { literal, generator }
}

// Takes two draws: the first and then the second operand of the gate whose literal is `own`, each one of the literals below it.
fn choose_operands(before: Generator, own: u32) -> Operands
    requires { 0 < own }
    ensures { result ≡ operands_of before own }
{
    let one = choose(before, own);
    let two = choose(one.generator, own);
    let generator = two.generator;
    Operands {
        left: one.literal,
        right: two.literal,
        generator,
    }
}

// The length of the header's line.
fn head_length(n: Counts, all: u32) -> usize
    requires { all ≡ n.inputs + n.latches + n.gates }
    ensures { result ≡ length (head_text n.inputs n.latches n.gates) }
{
    let few = numbers::digit_count(n.inputs) + numbers::digit_count(n.latches);
    12 + numbers::digit_count(all) + few + numbers::digit_count(n.gates)
}

// The length of the lines of the inputs of n variables from `first` on.
fn inputs_length(first: u32, n: u32) -> usize
    requires { first + n ≤ 4097 }
    ensures { result ≡ length (inputs_text first n) }
{
    let mut total: usize = 0;
    let mut v = first;
    let mut left = n;
    while 0 < left {
        total += numbers::digit_count(2 * v) + 1;
        v += 1;
        left -= 1;
    }
    total
}

// The length of the lines of the latches of n variables from `first` on, whose next literals are some of `literals`, and the generator
// after them.
fn latches_length(generator: Generator, first: u32, n: u32, literals: u32) -> Place
    requires { Numbers first n literals }
    ensures { result ≡ past_latches generator first n literals }
{
    let mut total: usize = 0;
    let mut state = generator;
    let mut v = first;
    let mut left = n;
    while 0 < left {
        let next = choose(state, literals);
        total += numbers::digit_count(2 * v) + numbers::digit_count(next.literal) + 2;
        state = next.generator;
        v += 1;
        left -= 1;
    }
    Place {
        at: total,
        generator: state,
    }
}

// The length of the lines of the gates of n variables from `first` on.
fn gates_length(generator: Generator, first: u32, n: u32) -> usize
    requires { (0 < first) × (first + n ≤ 4097) }
    ensures { result ≡ length (gates_text generator.state first n) }
{
    let mut total: usize = 0;
    let mut state = generator;
    let mut v = first;
    let mut left = n;
    while 0 < left {
        let own = 2 * v;
        let of = choose_operands(state, own);
        total += numbers::digit_count(own)
            + numbers::digit_count(of.left)
            + numbers::digit_count(of.right)
            + 3;
        state = of.generator;
        v += 1;
        left -= 1;
    }
    total
}

// The length of the text.
fn text_length(seed: u64, n: Counts) -> usize
    requires { PermittedCounts n }
    ensures { result ≡ length (text_of seed n) }
{
    let inputs = n.inputs;
    let latches = n.latches;
    let gates = n.gates;
    let all = inputs + latches + gates;
    let head = head_length(n, all) + inputs_length(1, inputs);
    let past = latches_length(Generator::seeded(seed), inputs + 1, latches, 2 * all + 2);
    let bad = numbers::digit_count(2 * all) + 1;
    head + past.at + bad + gates_length(past.generator, inputs + latches + 1, gates)
}

// Puts a line of two numbers.
fn put_two(out: &mut [u8], at: usize, a: u32, b: u32) -> usize
    requires { Room out.old at (line_of a (b ∷ [])) }
    ensures { Placed out.old at (line_of a (b ∷ [])) result out.new }
{
    let row = [a, b];
    output::put_row(&row, 0, 2, out, at)
}

// Puts a line of three numbers.
fn put_three(out: &mut [u8], at: usize, a: u32, b: u32, c: u32) -> usize
    requires { Room out.old at (line_of a (b ∷ c ∷ [])) }
    ensures { Placed out.old at (line_of a (b ∷ c ∷ [])) result out.new }
{
    let row = [a, b, c];
    output::put_row(&row, 0, 3, out, at)
}

// Puts the header's line.
fn put_head(out: &mut [u8], n: Counts, all: u32) -> usize
    requires all_value { all ≡ n.inputs + n.latches + n.gates }
    requires room { Room out.old 0 (head_text n.inputs n.latches n.gates) }
    ensures { Placed out.old 0 (head_text n.inputs n.latches n.gates) result out.new }
{
    let row = [all, n.inputs, n.latches, 0, n.gates, 1];
    let at = output::put(out, 0, b"aag ");
    output::put_row(&row, 0, 6, out, at)
}

// Puts the lines of the inputs of n variables from `first` on.
fn put_inputs(out: &mut [u8], at: usize, first: u32, n: u32) -> usize
    requires { (first + n ≤ 4097) × Room out.old at (inputs_text first n) }
    ensures { Placed out.old at (inputs_text first n) result out.new }
{
    let mut end = at;
    let mut v = first;
    let mut left = n;
    while 0 < left {
        end = output::put_ended(out, end, 2 * v, 0);
        v += 1;
        left -= 1;
    }
    end
}

// Puts the lines of the latches of n variables from `first` on, whose next literals are some of `literals`.
fn put_latches(out: &mut [u8], from: Place, first: u32, n: u32, literals: u32) -> Place
    requires { Numbers first n literals × Room out.old from.at (latches_text literals from.generator.state first n) }
    ensures { LatchesPut out.old from first n literals result out.new }
{
    let mut end = from.at;
    let mut state = from.generator;
    let mut v = first;
    let mut left = n;
    while 0 < left {
        let next = choose(state, literals);
        end = put_two(out, end, 2 * v, next.literal);
        state = next.generator;
        v += 1;
        left -= 1;
    }
    Place {
        at: end,
        generator: state,
    }
}

// Puts the lines of the gates of n variables from `first` on.
fn put_gates(out: &mut [u8], from: Place, first: u32, n: u32) -> usize
    requires { (0 < first) × (first + n ≤ 4097) × Room out.old from.at (gates_text from.generator.state first n) }
    ensures { Placed out.old from.at (gates_text from.generator.state first n) result out.new }
{
    let mut end = from.at;
    let mut state = from.generator;
    let mut v = first;
    let mut left = n;
    while 0 < left {
        let own = 2 * v;
        let of = choose_operands(state, own);
        end = put_three(out, end, own, of.left, of.right);
        state = of.generator;
        v += 1;
        left -= 1;
    }
    end
}

// Puts the text at the front of out.
fn put_text(out: &mut [u8], seed: u64, n: Counts)
    requires { PermittedCounts n × (length (text_of seed n) ≤ length out.old) }
    ensures { out.new ≡ front (text_of seed n) out.old }
{
    let inputs = n.inputs;
    let latches = n.latches;
    let gates = n.gates;
    let all = inputs + latches + gates;
    let head = put_head(out, n, all);
    let lines = put_inputs(out, head, 1, inputs);
    let seeded = Generator::seeded(seed);
    let from = Place {
        at: lines,
        generator: seeded,
    };
    let past = put_latches(out, from, inputs + 1, latches, 2 * all + 2);
    let bad = output::put_ended(out, past.at, 2 * all, 0);
    let generator = past.generator;
    let rest = Place { at: bad, generator };
    put_gates(out, rest, inputs + latches + 1, gates);
}

// The operation generate: puts the text of the circuit of a seed and counts at the front of out.
pub fn generate(seed: u64, i: u64, l: u64, a: u64, out: &mut [u8]) -> GenerateAnswer
    ensures { Generated seed i l a out.old (answered result) out.new }
{
    if !permits(i, l, a) {
        return GenerateAnswer::Refused(3);
    }
    let n = Counts {
        inputs: i as u32,
        latches: l as u32,
        gates: a as u32,
    };
    let length = text_length(seed, n);
    if out.len() < length {
        return GenerateAnswer::Refused(13);
    }
    put_text(out, seed, n);
    GenerateAnswer::Length(length as u32)
}
