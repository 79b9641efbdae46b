// The least cost of each node, from every path there is.
use crate::case::{Case, Distances, place};
use metric::Metric;
use wire::lines::Line;

// A path from the root: the node at its end, its cost, and the nodes on it, one bit to each.
#[derive(Clone, Copy)]
struct Path {
    end: u8,
    cost: u64,
    nodes: u64,
}

impl Path {
    fn visits(self, node: u8) -> bool {
        self.nodes & (1 << place(node)) != 0
    }

    // The path with one line more.
    fn along<M: Metric>(self, metric: &M, line: Line) -> Path {
        Path {
            end: line.neighbour,
            cost: metric.add(self.cost, line.figure),
            nodes: self.nodes | (1 << place(line.neighbour)),
        }
    }
}

impl<M: Metric> Case<'_, M> {
    // Keeps the cost of a path, if it is the least so far for the node at its end.
    fn keep(&self, path: Path, least: &mut Distances) {
        let held = least[place(path.end)];
        if held.is_none_or(|cost| self.metric.less(path.cost, cost)) {
            least[place(path.end)] = Some(path.cost);
        }
    }

    // Tries a path, and every longer one that begins with it and has at most so many lines more.
    fn try_paths(&self, path: Path, more: u8, least: &mut Distances) {
        self.keep(path, least);
        if more == 0 {
            return;
        }
        for line in self.map.lines_from(path.end) {
            if !path.visits(line.neighbour) {
                self.try_paths(path.along(self.metric, *line), more - 1, least);
            }
        }
    }

    // The least cost among all paths from the root to each node. No path has as many lines as there are nodes.
    pub(crate) fn least_costs(&self) -> Distances {
        let mut least = [None; 64];
        let path = Path {
            end: self.root,
            cost: self.metric.empty(),
            nodes: 1 << place(self.root),
        };
        self.try_paths(path, self.map.count(), &mut least);
        least
    }
}
