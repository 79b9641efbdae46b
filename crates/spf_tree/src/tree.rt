// The shortest-path tree.
ghost use Rattle.std.specs.Prelude.{◌≡◌, ℕ, ◌≤◌, MatchOption};
ghost use Rattle.spf.specs.Maps.{Node};
ghost use Rattle.spf.specs.Model.{map_of};
ghost use Rattle.spf.specs.Reckoning.{route_at};
ghost use Rattle.spf.specs.Routes.{IsRoute};
ghost use Rattle.spf_laws.specs.Searches.{Partial};
ghost use Rattle.spf_tree.specs.Trees.{tree_answer, AllRoutes};

use crate::begin::root_alone;
use crate::search::Search;
use crate::settle::Settled;
use metric::Metric;
use spf::map::Map;
use spf::route::Tree;

// Finds the routes from a table that holds costs of paths: settles the nearest node that waits and offers its lines, until
// no node waits. Metric, map and root are handed on: as fields of the search, each of its steps would have to promise that it leaves them alone.
fn search<M: Metric>(metric: &M, map: &Map, root: u8, table: Tree) -> Tree
    requires rooted { Node (map_of map.now) root }
    requires partial { Partial (M.means metric.now) (map_of map.now) root (route_at table) }
    ensures { AllRoutes (M.means metric.now) (map_of map.now) root result }
{
    metric.laws();
    map.sound();
    let mut search = Search::begin(table);
    while let Some((place, cost)) = search.nearest(metric) {
        let node = search.settle(root, place);
        search.relax(metric, map, Settled { node, cost });
    }
    search.routes
}

// The tree of a root; none if the map has no such node.
pub fn shortest_paths<M: Metric>(metric: &M, map: &Map, root: u8) -> Option<Tree>
    ensures value { result ≡ tree_answer (M.means metric.now) (map_of map.now) root }
    ensures right { MatchOption result (Node (map_of map.now) root → ⊥) (λ tree. AllRoutes (M.means metric.now) (map_of map.now) root tree) }
{
    // Two comparisons, as in `Map`: what holds behind them is asked of the root and not of a range.
    if root < 1 || root > map.count() {
        return None;
    }
    metric.laws();
    map.sound();
    Some(search(metric, map, root, root_alone(root, metric.empty())))
}
