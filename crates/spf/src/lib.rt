// Shortest paths: the map, what a route is, and the changed count.
//
//   map.rt      the map of a network, with its invariant
//   making.rt   a map without lines, and a row put in
//   reading.rt  what a map holds: its count, the lines that leave a node, a figure
//   route.rt    the route to a node, and the tree of a root
//   changes.rt  the changed count between two trees

#![tactic(auto)]

pub mod changes;
pub mod making;
pub mod map;
pub mod reading;
pub mod route;
