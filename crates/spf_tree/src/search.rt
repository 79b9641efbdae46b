// What a search holds between two steps.
ghost use Rattle.spf_tree.specs.Queues.{Queued, reached_by, Mirrors};

use spf::route::Tree;

// The routes found so far, and the nodes that were reached, in a list: first those that are settled, in the order of settling,
// then those that wait. Each node that has a distance is listed once, and its cost stands in `costs` too.
// An array and marks in it, since the library allocates nothing.
//
// The costs stand beside the routes for speed: a look for the nearest node that read the routes took 30,500 instructions a tree, past
// one and a half times the 19,900 of a search in C; this takes 26,350.
#[derive(Drop)]
pub(crate) struct Search {
    pub(crate) routes: Tree,
    pub(crate) costs: [u64; 64],
    pub(crate) nodes: [u8; 64],
    pub(crate) settled: usize,
    pub(crate) reached: usize,
    ghost queued: { Queued (reached_by routes) nodes reached },
    ghost mirrored: { Mirrors routes costs },
}
