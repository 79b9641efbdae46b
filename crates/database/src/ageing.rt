// A period passes.
ghost use Rattle.std.specs.Prelude.{◌≡◌, ℕ, ◌<◌, length, slice_index_or};
ghost use Rattle.entries.specs.Entries.{aged, missing};
ghost use Rattle.database.specs.States.{state, aged_state, lapses};

use crate::types::Database;
use entries::entry::Entry;

// Every entry a period later. In place: the array's `map` moves each entry several times, and took twenty times the instructions.
fn age_each(entries: &mut [Entry; 64])
    ensures size { length entries.new ≡ 64 }
    ensures each { (k : ℕ) → k < 64 → slice_index_or entries.new k missing ≡ aged (slice_index_or entries.old k missing) }
{
    for entry in entries.iter_mut() {
        *entry = entry.aged();
    }
}

impl Database {
    // A period passes: every report in force, the own one too, has a period less to live. Answers how many are out of force now;
    // their lines stay.
    pub fn age_all(&mut self) -> u8
        ensures answer { result ≡ lapses (state self.old) }
        ensures left { state self.new ≡ aged_state (state self.old) }
    {
        let lapsed = self.entries.iter().filter(|entry| entry.age == 1).count();
        age_each(&mut self.entries);
        lapsed as u8
    }
}
