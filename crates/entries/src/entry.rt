// What the database holds of one node.
ghost use Rattle.std.specs.Prelude.{◌≡◌};
ghost use Rattle.entries.specs.Entries.{fresh, aged};

use rows::Row;

// The report that is in force for a node: its serial, the periods that it still has, and the lines that leave the node. At age 0
// the report has lapsed, and its lines stay.
#[derive(Clone, Copy, Debug, Default, PartialEq, Eq)]
pub struct Entry {
    pub serial: u8,
    pub age: u8,
    pub row: Row,
}

impl Entry {
    // Nothing heard.
    pub fn fresh() -> Entry
        ensures { result ≡ fresh }
    {
        Entry::default()
    }

    // The entry a period later.
    pub fn aged(self) -> Entry
        ensures { result ≡ aged self }
    {
        Entry {
            age: self.age.saturating_sub(1),
            ..self
        }
    }
}
