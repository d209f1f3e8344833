// The causes for which a call is refused, each with its number of clause 6.1.
#![tactic(auto)]

ghost use Rattle.std.specs.Prelude.{◌≡◌};
ghost use Rattle.refusals.specs.Refusals.{number_of};

// Why a call is refused.
#[derive(Clone, Copy, PartialEq, Eq)]
pub enum Refusal {
    FileSize, // 1: the file is empty or over 65,536 bytes
    Header, // 2: the header is malformed
    Counts, // 3: a count is not permitted
    CircuitMemory, // 4: circuit memory is too short
    Lines, // 5: a line is missing or malformed, or the tail is wrong
    Literals, // 6: a literal is above 2M+1, or a definition or reset is wrong
    Undefined, // 7: a used variable is undefined
    Cycle, // 8: gates depend on themselves
    NoCircuit, // 9: circuit memory holds no circuit
    BadLine, // 10: b is not below B
    Bound, // 11: k or t is above 255, or D is out of range
    Size, // 12: the size is above 65,536, or working memory is too short
    Output, // 13: the output is too short
    Witness, // 14: the witness is malformed, or its b is not below B
    Difference, // 15: a difference is cut short, too long, or gives a wrong operand
    ManyUnknown, // 16: the witness holds more than 16 x
    Shape, // 17: the circuits differ in I or O, or O is 0 or above 16
    User, // 18: the user, the input or the pin value is wrong
    Place, // 19: the place is above 2 to the 62, or not below 2 to the power n
    SearchNumber, // 20: the search number is above 15 or in use
    Form, // 21: the form is neither 0 nor 1
}

impl Refusal {
    // The number of this cause.
    pub fn number(self) -> u32
        ensures { result ≡ number_of self }
    {
        match self {
            Refusal::FileSize => 1,
            Refusal::Header => 2,
            Refusal::Counts => 3,
            Refusal::CircuitMemory => 4,
            Refusal::Lines => 5,
            Refusal::Literals => 6,
            Refusal::Undefined => 7,
            Refusal::Cycle => 8,
            Refusal::NoCircuit => 9,
            Refusal::BadLine => 10,
            Refusal::Bound => 11,
            Refusal::Size => 12,
            Refusal::Output => 13,
            Refusal::Witness => 14,
            Refusal::Difference => 15,
            Refusal::ManyUnknown => 16,
            Refusal::Shape => 17,
            Refusal::User => 18,
            Refusal::Place => 19,
            Refusal::SearchNumber => 20,
            Refusal::Form => 21,
        }
    }
}
