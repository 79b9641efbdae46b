// Which of two reports of one origin is newer.
ghost use Rattle.std.specs.Prelude.{◌≡◌};
ghost use Rattle.entries.specs.Freshness.{ahead, freshness, Comes};

use crate::entry::Entry;

// What a report is to the entry of its origin.
#[derive(Clone, Copy, Debug, PartialEq, Eq)]
pub enum Freshness {
    Newer,
    Duplicate,
    Older,
}

// How many serials, which go round after 63, `new` is ahead of `held`.
fn ahead(new: u8, held: u8) -> u8
    ensures { result ≡ ahead new held }
{
    (new % 64 + 64 - held % 64) % 64
}

impl Entry {
    // What a report with this serial is to the entry.
    pub fn compare(self, serial: u8) -> Freshness
        ensures value { result ≡ freshness self serial }
        ensures meaning { Comes self serial result }
    {
        let ahead = ahead(serial, self.serial);
        if self.age == 0 || (1..=31).contains(&ahead) {
            Freshness::Newer
        } else if serial == self.serial {
            Freshness::Duplicate
        } else {
            Freshness::Older
        }
    }
}
