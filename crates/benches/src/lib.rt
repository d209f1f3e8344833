// A bench of searches on one allowance. Definitions of what its calls do stand in specs/, theorems about sequences of them in proofs/.
#![tactic(auto)]

// A search on a bench. stage is 0 where the number is not in use, 1 where the search is unfinished, 2 where it has found a hit, and 3 where
// its frames have none. It is a number since the bytes of a bench hold it as one: other numbers stand there too, and mean 0. budget is what is outstanding; frame and place are where its next turn begins, or its last one began where it is
// finished.
#[derive(Clone, Copy, Default)]
pub struct Entry {
    pub stage: u64,
    pub b: u64,
    pub k: u64,
    pub budget: u64,
    pub frame: u64,
    pub place: u64,
}
