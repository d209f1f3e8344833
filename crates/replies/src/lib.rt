// What a command leaves to be printed, and the line of a refusal: its number, and the cause in words.
#![tactic(auto)]

ghost use Rattle.std.specs.Prelude.{◌≡◌, ◌++◌, ◌+◌, ◌≤◌, length};
ghost use Rattle.aiger.specs.Text.{bytes, digits};
ghost use Rattle.output.specs.Output.{Placed};
ghost use Rattle.replies.specs.Refusal.{cause, refusal_text};
ghost use Rattle.replies.specs.Reply.{Fronts};

// How many bytes of the line and of the output are to be printed.
#[derive(Clone, Copy)]
pub struct Report {
    pub line: usize,
    pub out: usize,
}

// Where the words of each cause begin, by its number; the last entry is where they end.
const STARTS: [usize; 23] = [
    0, 0, 38, 61, 131, 158, 210, 268, 296, 322, 353, 369, 410, 466, 489, 538, 599, 631, 683, 728,
    789, 828, 855,
];

// Writes a word, n and a line feed to the front of line. The answer is their length.
pub fn write_line(line: &mut [u8], word: &[u8], n: u32) -> usize
    requires { length word.now + 11 ≤ length line.old }
    ensures { Fronts (word.now ++ digits n ++ bytes "\n") line.old result line.new }
{
    let number = output::put(line, 0, word);
    let end = output::put_number(line, number, n);
    output::put(line, end, b"\n")
}

// Puts the words of cause n.
fn put_cause(line: &mut [u8], at: usize, n: u32) -> usize
    requires { at + 80 ≤ length line.old }
    ensures { Placed line.old at (cause n) result line.new }
{
    if 21 < n {
        return at;
    }
    let words: &[u8] = b"\
        the file is empty or over 65,536 bytes\
        the header is malformed\
        a count is not permitted, or I+L+A is above M, or not M in binary form\
        circuit memory is too short\
        a line is missing or malformed, or the tail is wrong\
        a literal is above 2M+1, or a definition or reset is wrong\
        a used variable is undefined\
        gates depend on themselves\
        circuit memory holds no circuit\
        b is not below B\
        k or t is above 255, or D is out of range\
        the size is above 65,536, or working memory is too short\
        the output is too short\
        the witness is malformed, or its b is not below B\
        a difference is cut short, too long, or gives a wrong operand\
        the witness holds more than 16 x\
        the circuits differ in I or O, or O is 0 or above 16\
        the user, the input or the pin value is wrong\
        the place is above 2 to the 62, or not below 2 to the power n\
        the search number is above 15 or in use\
        the form is neither 0 nor 1";
    let i = n as usize;
    let from = STARTS[i];
    let to = STARTS[i + 1];
    output::put(line, at, &words[from..to])
}

// Writes the line of refusal n to the front of line. The answer is its length.
pub fn write_refusal(line: &mut [u8], n: u32) -> usize
    requires { 128 ≤ length line.old }
    ensures { Fronts (refusal_text n) line.old result line.new }
{
    let number = output::put(line, 0, b"refused ");
    let colon = output::put_number(line, number, n);
    let words = output::put(line, colon, b": ");
    let end = put_cause(line, words, n);
    output::put(line, end, b"\n")
}

// The line of a refusal alone.
pub fn refuse(line: &mut [u8], n: u32) -> Report
    requires { 128 ≤ length line.old }
    ensures { Fronts (refusal_text n) line.old result.line line.new × (result.out ≡ 0) }
{
    let length = write_refusal(line, n);
    Report {
        line: length,
        out: 0,
    }
}
