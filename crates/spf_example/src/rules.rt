// Distances, parents and next hops as the rules word them.
use crate::case::{Case, Distances, place};
use metric::Metric;
use spf::route::Tree;

// The first node after the root along the tree's parents; 0 where they do not come to the root.
fn hop(tree: &Tree, root: u8, node: u8) -> u8 {
    let mut at = node;
    for _ in 0..64 {
        let parent = tree[place(at)].parent;
        if parent == 0 {
            return 0;
        }
        if parent == root {
            return at;
        }
        at = parent;
    }
    0
}

impl<M: Metric> Case<'_, M> {
    // The distance of a node with the figure of its line to another added.
    fn cost_by(&self, least: &Distances, from: u8, to: u8) -> Option<u64> {
        let near = least[place(from)]?;
        Some(self.metric.add(near, self.map.figure(from, to)?))
    }

    // The lowest-numbered node whose distance, with the figure of its line to this one added, is the distance of this one; 0 for
    // none, and for the root.
    fn parent(&self, least: &Distances, node: u8) -> u8 {
        if node == self.root {
            return 0;
        }
        let mut nodes = 1..=self.map.count();
        nodes
            .find(|from| {
                let cost = self.cost_by(least, *from, node);
                cost.is_some() && cost == least[place(node)]
            })
            .unwrap_or(0)
    }

    // Whether each route of the tree is as the least costs of all paths have it.
    pub(crate) fn agrees(&self, tree: &Tree) -> bool {
        let least = self.least_costs();
        (1..=64).all(|node| {
            let route = tree[place(node)];
            route.distance == least[place(node)]
                && route.parent == self.parent(&least, node)
                && route.hop == hop(tree, self.root, node)
        })
    }
}
