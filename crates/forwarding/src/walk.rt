ghost use Rattle.std.specs.Prelude.{◌≤◌};

// How a walk ended.
#[derive(Clone, Copy, Debug, PartialEq, Eq)]
pub enum End {
    // At its destination.
    Arrived,
    // After as many hops as there are nodes, at most 64.
    Loop,
    // At a node that shows no next hop.
    Lost,
}

// A walk: the node at which it began, then those that it hopped to. What stands behind them means nothing. The array has
// room for any walk, since the library allocates nothing.
#[derive(Clone, Copy, Debug, PartialEq, Eq)]
pub struct Walk {
    pub(crate) nodes: [u8; 65],
    // How many hops it made.
    pub(crate) made: u8,
    pub(crate) end: End,
    ghost few: { made ≤ 64 },
}

impl Walk {
    ghost use Rattle.std.specs.Prelude.{◌≡◌};
    ghost use Rattle.forwarding.specs.Courses.{course_of, hops_of};

    // The nodes, in order, from where it began.
    pub fn nodes(&self) -> &[u8]
        ensures { result.now ≡ (course_of self.now).nodes }
    {
        &self.nodes[..=usize::from(self.made)]
    }

    // The hops, in order: the nodes without the one at which it began.
    pub fn hops(&self) -> &[u8]
        ensures { result.now ≡ hops_of (course_of self.now) }
    {
        &self.nodes()[1..]
    }

    // How it ended.
    pub fn end(&self) -> End
        ensures { result ≡ (course_of self.now).end }
    {
        self.end
    }
}
