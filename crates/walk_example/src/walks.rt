// Walks cost the distance.
use crate::maps::{MAPS, map_of};
use forwarding::{End, Trees, forward};
use metric::{Delay, FewestLines, Metric};
use spf::map::Map;
use spf::route::Tree;
use spf_tree::shortest_paths;

// A map under a metric, and the trees of its nodes.
#[derive(Drop)]
struct Network<'a, 't, M> {
    metric: &'a M,
    map: &'a Map,
    trees: &'t [Tree],
}

impl<M: Metric> Network<'_, '_, M> {
    // The cost of the path from a node over these hops; none where a line is missing.
    fn cost_along(&self, from: u8, hops: &[u8]) -> Option<u64> {
        let mut cost = self.metric.empty();
        let mut at = from;
        for hop in hops {
            cost = self.metric.add(cost, self.map.figure(at, *hop)?);
            at = *hop;
        }
        Some(cost)
    }

    // Whether the walk arrives at the cost of the distance, or is lost at once where there is none.
    fn arrives(&self, from: u8, to: u8, distance: Option<u64>) -> bool {
        let walk = forward(&Trees { trees: self.trees }, from, to);
        if distance.is_some() {
            walk.end() == End::Arrived && self.cost_along(from, walk.hops()) == distance
        } else {
            walk.end() == End::Lost && walk.hops().is_empty()
        }
    }

    fn all_arrive(&self) -> bool {
        (1..=3).zip(self.trees).all(|(from, tree)| {
            (1..=3)
                .zip(tree)
                .all(|(to, route)| self.arrives(from, to, route.distance))
        })
    }
}

// Whether that is so from each node of a map; none if a tree were refused.
fn all_arrive<'a, M: Metric>(metric: &'a M, map: &'a Map) -> Option<bool> {
    let trees = [
        shortest_paths(metric, map, 1)?,
        shortest_paths(metric, map, 2)?,
        shortest_paths(metric, map, 3)?,
    ];
    let trees = trees.as_slice();
    Some(Network { metric, map, trees }.all_arrive())
}

fn on_all_maps<M: Metric>(metric: &M) -> Option<bool> {
    for number in 0..MAPS {
        if !all_arrive(metric, &map_of(number)?)? {
            return Some(false);
        }
    }
    Some(true)
}

#[test]
fn walks_cost_the_delay(rt: HostRuntime) {
    assert_eq!(rt; on_all_maps(&Delay), Some(true));
}

#[test]
fn walks_take_the_fewest_lines(rt: HostRuntime) {
    assert_eq!(rt; on_all_maps(&FewestLines), Some(true));
}
