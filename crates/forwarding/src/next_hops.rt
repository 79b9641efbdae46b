ghost use Rattle.std.specs.Prelude.{◌≡◌, ℕ};
ghost use Rattle.spf.specs.declared.route.Route.{Route};

// Nodes that show routes. Numbers that are no node's may be asked too.
pub trait NextHops {
    // The route from one number to another.
    ghost shows: { Self → ℕ → ℕ → Route };

    // How many nodes there are.
    ghost nodes: { Self → ℕ };

    // The count of the nodes.
    fn count(&self) -> usize
        ensures { result ≡ nodes self.now };

    // The next hop that the node `at` shows for the destination `to`: 0 for none, as the rules write it.
    fn next_hop(&self, at: u8, to: u8) -> u8
        ensures { result ≡ (shows self.now at to).hop };
}
