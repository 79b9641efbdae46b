// What is put to the test: a map under a metric, looked at from a root.
ghost use Rattle.std.specs.Prelude.{◌<◌};

use spf::map::Map;

#[derive(Drop)]
pub(crate) struct Case<'a, M> {
    pub(crate) metric: &'a M,
    pub(crate) map: &'a Map,
    pub(crate) root: u8,
}

// What is known of each node's distance: node v stands at place v - 1.
pub(crate) type Distances = [Option<u64>; 64];

// The place of a node.
pub(crate) fn place(node: u8) -> usize
    ensures { result < 64 }
{
    usize::from(node.wrapping_sub(1) % 64)
}
