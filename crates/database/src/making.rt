// A fresh database.
ghost use Rattle.std.specs.Prelude.{◌≡◌, Some};
ghost use Rattle.database.specs.States.{start_number, start_text, shown_start, starting};

use crate::types::Database;
use entries::entry::Entry;
use std::error::Error;
use std::fmt;

// Why no database is made.
#[derive(Clone, Copy, Debug, PartialEq, Eq)]
pub enum StartFault {
    Count = 1,
    Root = 2,
}

impl StartFault {
    // The refusal's number.
    pub fn number(self) -> u8
        ensures { result ≡ start_number self }
    {
        self as u8
    }
}

impl fmt::Display for StartFault {
    ghost output = { λ fault. Some (start_text fault) };

    fn fmt<W: fmt::Write>(&self, f: &mut fmt::Formatter<W>) -> fmt::Result {
        // The same word as in every crate that refuses: a crate of its own for it would be no plainer.
        write!(f, "refused {}", self.number())
    }
}

impl Error for StartFault {}

impl Database {
    // A database in which nothing was heard of any node: count in 1 to 64? root in 1 to count? The first no decides.
    // They are plain numbers here alone: from here on a Database has them, whose type holds their ranges.
    pub fn new(count: u8, root: u8) -> Result<Database, StartFault>
        ensures { shown_start result ≡ starting count root }
    {
        if !(1..=64).contains(&count) {
            return Err(StartFault::Count);
        }
        if !(1..=count).contains(&root) {
            return Err(StartFault::Root);
        }
        Ok(Database {
            count,
            root,
            entries: [Entry::fresh(); 64],
        })
    }
}
