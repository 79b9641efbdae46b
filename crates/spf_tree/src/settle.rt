// Settling a node, and the offers of its lines.
ghost use Rattle.std.specs.Prelude.{◌≡◌, ◌+◌, ◌-◌, ◌<◌, ◌≤◌, slice_index, slice_set};
ghost use Rattle.spf.specs.Maps.{Node};
ghost use Rattle.spf.specs.Model.{map_of};
ghost use Rattle.spf.specs.Reckoning.{route_at};
ghost use Rattle.spf_laws.specs.Searches.{lower_of, hop_by, offered, after_line};
ghost use Rattle.spf_tree.specs.Queues.{ChangedOver};
ghost use Rattle.spf_tree.specs.Steps.{offered_at, hopped, Offered};

use crate::search::Search;
use metric::Metric;
use spf::map::Map;
use spf::route::Route;
use wire::lines::Line;

// The lower of two parents: 0 is none, as the rules write it.
fn lower(parent: u8, node: u8) -> u8
    ensures { result ≡ lower_of parent node }
{
    if parent == 0 { node } else { parent.min(node) }
}

// A node that is settled, and its cost.
#[derive(Clone, Copy)]
pub(crate) struct Settled {
    pub(crate) node: u8,
    pub(crate) cost: u64,
}

impl Settled {
    // Offers a line of this figure to the node at its end: it takes the route at a lesser cost, and at the same cost the lower
    // parent.
    fn offer<M: Metric>(self, metric: &M, figure: u16, route: &mut Route)
        ensures { route.new ≡ offered (M.means metric.now) self.node ((M.means metric.now).add self.cost figure) route.old }
    {
        let cost = metric.add(self.cost, figure);
        match route.distance {
            Some(least) if !metric.less(cost, least) => {
                if cost == least {
                    route.parent = lower(route.parent, self.node);
                }
            }
            _ => {
                route.distance = Some(cost);
                route.parent = self.node;
            }
        }
    }
}

impl Search {
    // The next hop of a node, by its parent, which is settled; 0 for none, as the rules write it. Nodes that the search has listed are
    // known to be 1 to 64, so here and below their places are read without a look-up.
    fn hop_of(&self, root: u8, node: u8, parent: u8) -> u8
        requires { parent ≤ 64 }
        ensures { result ≡ hop_by root node parent (route_at self.now.routes parent).hop }
    {
        if parent == 0 {
            return 0;
        }
        if parent == root {
            return node;
        }
        self.routes[usize::from(parent) - 1].hop
    }

    // Settles the node at a place of the list: it joins those that are settled, and gets its next hop.
    pub(crate) fn settle(&mut self, root: u8, place: usize) -> u8
        requires there { place < self.old.reached }
        requires waits { self.old.settled ≤ place }
        requires parent { (route_at self.old.routes (slice_index self.old.nodes place)).parent ≤ 64 }
        ensures node { result ≡ slice_index self.old.nodes place }
        ensures nodes { ChangedOver self.old.nodes self.new.nodes self.old.settled place }
        ensures settled { self.new.settled ≡ self.old.settled + 1 }
        ensures reached { self.new.reached ≡ self.old.reached }
        ensures routes { self.new.routes ≡ slice_set self.old.routes (result - 1) (hopped root result self.old.routes) }
    {
        let node = self.nodes[place];
        let at = usize::from(node) - 1;
        let hop = self.hop_of(root, node, self.routes[at].parent);
        self.routes[at].hop = hop;
        self.nodes.swap(self.settled, place);
        self.settled += 1;
        node
    }

    // Offers a line: its neighbour joins the list if it is reached for the first time.
    fn offer<M: Metric>(&mut self, metric: &M, settled: Settled, line: Line)
        requires low { 1 ≤ line.neighbour }
        requires high { line.neighbour ≤ 64 }
        ensures { Offered (offered_at (M.means metric.now) settled.node settled.cost line) self.old self.new }
    {
        let place = usize::from(line.neighbour) - 1;
        let route = &mut self.routes[place];
        let first = route.distance.is_none();
        settled.offer(metric, line.figure, route);
        self.costs[place] = route.distance.unwrap_or(0);
        if first {
            self.nodes[self.reached] = line.neighbour;
            self.reached += 1;
        }
    }

    // Offers all lines that leave a settled node.
    pub(crate) fn relax<M: Metric>(&mut self, metric: &M, map: &Map, settled: Settled)
        requires { Node (map_of map.now) settled.node }
        ensures { Offered (λ v. after_line (M.means metric.now) settled.node settled.cost ((map_of map.now).figure settled.node v)) self.old self.new }
    {
        for line in map.lines_from(settled.node) {
            self.offer(metric, settled, *line);
        }
    }
}
