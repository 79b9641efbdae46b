// Forwarding: a walk from next hop to next hop, over whatever shows next hops.
//
// - src/next_hops.rt: the trait `NextHops`, for nodes that each show a next hop to a destination
// - src/trees.rt: `Trees`, a slice of trees, one to a node
// - src/walk.rt: `Walk`, the nodes of a walk, and `End`, how it ended
// - src/hops.rt: `forward`, which walks, with the theorem of forwarding
// - specs/Courses.antt: the walk as a definition
// - specs/Going.antt: what holds of it whatever the nodes show
// - specs/Arrival.antt: what holds of it where all nodes show their routes of one map under one metric
// - specs/Shown.antt: what trees show

#![tactic(auto)]

pub mod hops;
pub mod next_hops;
pub mod trees;
pub mod walk;

pub use hops::forward;
pub use next_hops::NextHops;
pub use trees::Trees;
pub use walk::{End, Walk};
