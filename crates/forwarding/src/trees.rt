ghost use Rattle.std.specs.Prelude.{◌≡◌, length};
ghost use Rattle.spf.specs.Reckoning.{route_at};
ghost use Rattle.forwarding.specs.Shown.{shown_by};

use super::next_hops::NextHops;
use rows::places::place;
use spf::route::Tree;

// The trees of a network, one to a node: the tree of node x stands at place x - 1. They may hold any numbers at all.
#[derive(Clone, Copy, Debug, PartialEq, Eq)]
pub struct Trees<'a> {
    pub trees: &'a [Tree],
}

impl<'a> NextHops for Trees<'a> {
    ghost shows = { λ s. shown_by s.trees.now };

    ghost nodes = { λ s. length s.trees.now };

    fn count(&self) -> usize {
        self.trees.len()
    }

    fn next_hop(&self, at: u8, to: u8) -> u8 {
        self.trees.get(place(at)).map_or(0, |tree| hop_in(tree, to))
    }
}

// The next hop to a node in a tree, 0 for a number that is no node's.
fn hop_in(tree: &Tree, to: u8) -> u8
    ensures { result ≡ (route_at tree.now to).hop }
{
    tree.get(place(to)).map_or(0, |route| route.hop)
}
