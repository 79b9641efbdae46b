// What is read from the database.
ghost use Rattle.std.specs.Prelude.{◌≡◌, ◌<◌, ◌≤◌, true, IfSome};
ghost use Rattle.rows.specs.Rows.{allowed_row};
ghost use Rattle.entries.specs.Entries.{sound_entry};
ghost use Rattle.database.specs.States.{state, entry_of, age_of, row_of};

use crate::types::Database;
use entries::entry::Entry;
use rows::Row;
use rows::places::place;

impl Database {
    // How many nodes the network has.
    pub fn count(&self) -> u8
        ensures value { result ≡ (state self.now).count }
        ensures range { (1 ≤ result) × (result ≤ 64) }
    {
        self.count
    }

    // The node that keeps the database.
    pub fn root(&self) -> u8
        ensures value { result ≡ (state self.now).root }
        ensures range { (1 ≤ result) × (result ≤ (state self.now).count) }
    {
        self.root
    }

    // The entry of a node, which is sound; none for a number that is not in 1 to the count.
    pub fn entry(&self, origin: u8) -> Option<Entry>
        ensures value { result ≡ entry_of (state self.now) origin }
        ensures sound { IfSome result (λ e. sound_entry (state self.now).count origin e ≡ true) }
    {
        self.entries[..usize::from(self.count)]
            .get(place(origin))
            .copied()
    }

    // The age of a node's report; 0 for a number that is not in 1 to the count.
    pub fn age(&self, origin: u8) -> u8
        ensures { result ≡ age_of (state self.now) origin }
    {
        self.entry(origin).map_or(0, |entry| entry.age)
    }

    // The lines that leave a node, which are allowed; none for a number that is not in 1 to the count.
    pub fn row(&self, node: u8) -> Row
        ensures value { result ≡ row_of (state self.now) node }
        ensures allowed { allowed_row (state self.now).count node result ≡ true }
    {
        self.entry(node).map_or_else(Row::new, |entry| entry.row)
    }
}
