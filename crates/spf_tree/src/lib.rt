// The shortest-path tree of a root: shortest path first, over any metric.
//
// - src/search.rt: what the search holds
// - src/begin.rt: how it begins, from the root alone or from any table of costs of paths
// - src/nearest.rt: which node is settled next
// - src/settle.rt: settling a node, and the offers of its lines
// - src/tree.rt: the tree

#![tactic(auto)]

mod begin;
mod nearest;
mod search;
mod settle;
pub mod tree;

pub use tree::shortest_paths;
