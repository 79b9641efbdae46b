// Small random maps, for the metrics of the node and for a foreign one.
use crate::case::Case;
use crate::maps::small_map;
use metric::{Delay, FewestLines, Metric};
use metric_example::{Floor, PricedDelay};
use random::Random;
use spf::map::Map;
use spf_tree::shortest_paths;

// Whether the tree of each root has the least costs of all paths, and the parents and next hops that follow from them.
fn agrees<M: Metric>(metric: &M, map: &Map) -> bool {
    (1..=map.count()).all(|root| {
        let case = Case { metric, map, root };
        shortest_paths(metric, map, root).is_some_and(|tree| case.agrees(&tree))
    })
}

fn all_agree<M: Metric>(metric: &M) -> bool {
    let mut random = Random::new();
    (0..2000).all(|_| small_map(&mut random).is_some_and(|map| agrees(metric, &map)))
}

#[test]
fn least_delay_of_all_paths(rt: HostRuntime) {
    assert!(rt; all_agree(&Delay));
}

#[test]
fn fewest_lines_of_all_paths(rt: HostRuntime) {
    assert!(rt; all_agree(&FewestLines));
}

#[test]
fn least_foreign_cost_of_all_paths(rt: HostRuntime) {
    let metric = Floor {
        metric: PricedDelay { price: 2 },
        least: 2,
    };
    assert!(rt; all_agree(&metric));
}
