// The test of a starting place. What a search from a place may answer stands in specs/, theorems about it in proofs/.
#![tactic(auto)]

ghost use Rattle.std.specs.Prelude.{◌≡◌};
ghost use Rattle.place_search.specs.Operation.{place_right};

// Whether a search may start at a place of 2 to the power n: the place is one of them, and not above 2 to the power 62.
pub fn is_place(n: usize, place: u64) -> bool
    ensures { result ≡ place_right n place }
{
    if 62 < n {
        return place <= 4611686018427387904;
    }
    place < 1u64 << n
}
