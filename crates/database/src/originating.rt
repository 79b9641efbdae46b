// The root's own reports.
ghost use Rattle.std.specs.Prelude.{◌≡◌};
ghost use Rattle.database.specs.States.{state};
ghost use Rattle.database.specs.Originating.{originate_answer, originate_state};

use crate::types::Database;
use entries::entry::Entry;
use rows::Row;
use rows::places::place;

// The age of a report as its origin makes it.
const NEW: u8 = 7;

impl Database {
    // Makes an own report of these lines, with the next serial, and answers that serial. None, and nothing changed, if the lines may
    // not leave the root.
    pub fn originate(&mut self, row: Row) -> Option<u8>
        ensures answer { result ≡ originate_answer (state self.old) row }
        ensures left { state self.new ≡ originate_state (state self.old) row }
    {
        if !row.allowed(self.count, self.root) {
            return None;
        }
        let place = place(self.root);
        let serial = (self.entries[place].serial + 1) % 64;
        self.entries[place] = Entry {
            serial,
            age: NEW,
            row,
        };
        Some(serial)
    }
}
