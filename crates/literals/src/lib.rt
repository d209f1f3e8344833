// Variables, literals and nodes as types of their own, so that none is taken for another.
// Clause 11.6: variables, literals and nodes are types of their own.
#![tactic(auto)]

ghost use Rattle.std.specs.Prelude.{◌≡◌, eqb, leb};
ghost use Rattle.literals.specs.Literal.{literal, word_of, complemented};

// A variable number. Variable 0 is the constant.
#[derive(Clone, Copy, PartialEq, Eq)]
pub struct Var(pub u32);

// A node of the graph of a folded frame. The variable that the folded file gives it has another number.
#[derive(Clone, Copy, PartialEq, Eq)]
pub struct Node(pub u32);

// A variable, and whether the literal is its complement.
#[derive(Clone, Copy, PartialEq, Eq)]
pub struct Lit(pub Var, pub bool);

impl Lit {
    // "Literal 2v is variable v and 2v+1 its complement."
    pub fn from_word(w: u32) -> Lit
        ensures { result ≡ literal w }
    {
        Lit(Var(w / 2), w % 2 == 1)
    }

    pub fn word(self) -> u64
        ensures { result ≡ word_of self }
    {
        let v = u64::from(self.0.0);
        if self.1 { 2 * v + 1 } else { 2 * v }
    }

    pub fn var(self) -> Var
        ensures { result ≡ self.0 }
    {
        self.0
    }

    pub fn is_complement(self) -> bool
        ensures { result ≡ self.1 }
    {
        self.1
    }

    pub fn complement(self) -> Lit
        ensures { result ≡ complemented self }
    {
        let v = self.0;
        Lit(v, !self.1)
    }
}

impl Lit {
    pub fn equals(self, other: Lit) -> bool
        ensures { result ≡ eqb (word_of self) (word_of other) }
    {
        self == other
    }

    // Whether the literal is constant: 0 or 1.
    pub fn is_constant(self) -> bool
        ensures { result ≡ leb (word_of self) 1 }
    {
        let v = self.0.0;
        v == 0
    }

    // Whether it is 1, the constant true.
    pub fn is_true(self) -> bool
        ensures { result ≡ eqb (word_of self) 1 }
    {
        self.word() == 1
    }
}
