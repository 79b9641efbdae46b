// What a tree says of one node.
ghost use Rattle.std.specs.Prelude.{◌≡◌, Some};

// The route to a node: its distance, absent where there is no path, its parent, and the next hop towards it. Parent and
// hop are numbers of nodes, and 0 for the root and for a node without a path, as the rules write them.
#[derive(Clone, Copy, Debug, Default, PartialEq, Eq)]
pub struct Route {
    pub distance: Option<u64>,
    pub parent: u8,
    pub hop: u8,
}

impl Route {
    // The route to a node at a distance.
    pub fn new(distance: u64, parent: u8, hop: u8) -> Route
        ensures { result ≡ record { distance = Some distance; parent = parent; hop = hop } }
    {
        Route {
            distance: Some(distance),
            parent,
            hop,
        }
    }
}

// The tree of a root: the route to node v stands at place v - 1, for every number of a node, 1 to 64.
pub type Tree = [Route; 64];
