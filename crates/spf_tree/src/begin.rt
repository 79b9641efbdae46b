// How a search begins.
ghost use Rattle.std.specs.Prelude.{◌≡◌, ◌-◌, ◌≤◌, replicate, slice_set};
ghost use Rattle.spf.specs.Reckoning.{no_route};
ghost use Rattle.spf_tree.specs.Queues.{alone};

use crate::search::Search;
use spf::route::{Route, Tree};

// The table that reaches the root alone, at the empty cost.
pub(crate) fn root_alone(root: u8, empty: u64) -> Tree
    requires { (1 ≤ root) × (root ≤ 64) }
    ensures { result ≡ slice_set (replicate 64 no_route) (root - 1) (alone empty) }
{
    let none = Route::default();
    let mut routes = [none; 64];
    routes[usize::from(root) - 1] = Route::new(empty, 0, 0);
    routes
}

impl Search {
    // The search over a table: the nodes that it reaches wait.
    pub(crate) fn begin(routes: Tree) -> Search
        ensures routes { result.routes ≡ routes }
        ensures settled { result.settled ≡ 0 }
    {
        let mut costs = [0; 64];
        let mut nodes = [0; 64];
        // As long as the list that the loop fills.
        let mut reached = 0;
        for (place, route) in routes.iter().enumerate() {
            if let Some(cost) = route.distance {
                costs[place] = cost;
                nodes[reached] = place as u8 + 1;
                reached += 1;
            }
        }
        Search {
            routes,
            costs,
            nodes,
            settled: 0,
            reached,
        }
    }
}
