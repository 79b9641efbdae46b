// The changed count: how many routes differ between two trees.
ghost use Rattle.std.specs.Prelude.{◌≡◌, Decides, count_by, not};
ghost use Rattle.std.specs.List.{zip};
ghost use Rattle.spf.specs.Changes.{same_route, changed_count, CountsChanges};

use crate::route::{Route, Tree};

impl Route {
    // Whether two routes are the same in all three parts. The derived `==` finds it out; that it decides whether they are equal is said here.
    #[tactic(auto, using(crate::proofs::Counts::route_decides))]
    pub fn same(self, other: Route) -> bool
        ensures value { result ≡ same_route self other }
        ensures law { Decides result (self ≡ other) }
    {
        self == other
    }
}

// How many routes of one tree are not those at the same places of the other.
fn differing(before: &Tree, after: &Tree) -> u8
    ensures { result ≡ count_by (λ p. not (same_route p.0 p.1)) (zip before.now after.now) }
{
    before
        .iter()
        .zip(after)
        .filter(|(old, new)| old != new)
        .count() as u8
}

// The number of nodes whose route differs between the two trees.
pub fn changed(before: &Tree, after: &Tree) -> u8
    ensures value { result ≡ changed_count before.now after.now }
    ensures law { CountsChanges before.now after.now result }
{
    differing(before, after)
}
