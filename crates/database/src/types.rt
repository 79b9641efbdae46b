// The database of one node: the entries of all nodes. Its methods stand in files of their own, since what they cite names it.
ghost use Rattle.std.specs.Prelude.{◌≡◌, ℕ, ◌+◌, ◌<◌, ◌≤◌, true, length, slice_index_or};
ghost use Rattle.entries.specs.Entries.{sound_entry, missing};

use entries::entry::Entry;

// The network has `count` nodes, and `root` is the node that keeps the database. The entry of node n stands at n - 1, and every
// entry is sound: it may be that of its node in a network of so many.
#[derive(Debug, Drop, PartialEq, Eq)]
pub struct Database {
    pub(crate) count: u8,
    pub(crate) root: u8,
    pub(crate) entries: [Entry; 64],
    ghost range: { (1 ≤ root) × (root ≤ count) × (count ≤ 64) },
    ghost full: { length entries ≡ 64 },
    ghost sound: { (k : ℕ) → k < 64 → sound_entry count (k + 1) (slice_index_or entries k missing) ≡ true },
}
