// Which node is settled next.
ghost use Rattle.std.specs.Prelude.{◌≡◌, ◌<◌, ◌≤◌, Some, MatchOption};
ghost use Rattle.spf_tree.specs.Queues.{cost_at, Nearest, Costs};

use crate::search::Search;
use metric::Metric;

impl Search {
    // The cost of the node at a place of the list.
    fn cost_at(&self, place: usize) -> u64
        requires { place < self.now.reached }
        ensures { cost_at self.now.routes self.now.nodes place ≡ Some result }
    {
        let node = usize::from(self.nodes[place]);
        self.costs[node - 1]
    }

    // The place of the nearest node that waits, and its cost; the first in the list among those that are equally near. None
    // if no node waits.
    pub(crate) fn nearest<M: Metric>(&self, metric: &M) -> Option<(usize, u64)>
        requires { Costs (M.means metric.now) self.now.routes }
        ensures { MatchOption result (self.now.reached ≤ self.now.settled) (λ near. Nearest (M.means metric.now) self.now.routes self.now.nodes self.now.settled self.now.reached near.0 near.1) }
    {
        if self.settled >= self.reached {
            return None;
        }
        metric.laws();
        let mut best = self.settled;
        let mut least = self.cost_at(best);
        // Over places, not over the nodes there: the place is what is asked for. No `min_by_key`: a metric is no `Ord`.
        for place in self.settled + 1..self.reached {
            let cost = self.cost_at(place);
            if metric.less(cost, least) {
                best = place;
                least = cost;
            }
        }
        Some((best, least))
    }
}
