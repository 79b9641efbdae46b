// What taking a report answers.
ghost use Rattle.std.specs.Prelude.{◌≡◌, Some};
ghost use Rattle.entries.specs.Verdicts.{take_number, take_place, take_text, verdict};
ghost use Rattle.entries.specs.declared.verdicts.TakeFault.TheVariants.{Read};

use crate::freshness::Freshness;
use std::error::Error;
use std::fmt;
use wire::fault::ReadFault;
use wire::report::Header;

// What became of a report that was not refused.
#[derive(Clone, Copy, Debug, PartialEq, Eq)]
pub enum Taken {
    // It replaced the entry of its origin.
    Accepted,
    // It is newer, but of the root's own number.
    Own,
    // It is not newer, and has the serial of the entry.
    Duplicate,
    // It is not newer, and has another serial.
    Older,
}

// A report that was taken: who reported what, and what became of it.
#[derive(Clone, Copy, Debug, PartialEq, Eq)]
pub struct Taking {
    pub header: Header,
    pub taken: Taken,
}

// Why a report is refused.
#[derive(Clone, Copy, Debug, PartialEq, Eq)]
pub enum TakeFault {
    // The bytes are no report.
    Read(ReadFault),
    // The origin is not within the count.
    Origin,
    // A neighbour is not within the count; its byte is the place.
    Neighbour { place: usize },
}

impl TakeFault {
    // The refusal's number. A match, since variants that hold a value have no number to read by `as`.
    pub fn number(self) -> u8
        ensures { result ≡ take_number self }
    {
        match self {
            TakeFault::Read(fault) => fault.question.number(),
            TakeFault::Origin => 23,
            TakeFault::Neighbour { .. } => 24,
        }
    }

    // The byte, counted from 0, that the question was asked of; the origin is byte 3 of a report.
    pub fn place(self) -> usize
        ensures { result ≡ take_place self }
    {
        match self {
            TakeFault::Read(fault) => fault.place,
            TakeFault::Origin => 3,
            TakeFault::Neighbour { place } => place,
        }
    }
}

impl fmt::Display for TakeFault {
    ghost output = { λ fault. Some (take_text fault) };

    fn fmt<W: fmt::Write>(&self, f: &mut fmt::Formatter<W>) -> fmt::Result {
        write!(f, "refused {} at {}", self.number(), self.place())
    }
}

impl Error for TakeFault {}

// By hand: a derived `From` promises nothing of what it makes.
impl From<ReadFault> for TakeFault {
    ghost from_gives = { λ e r. r ≡ Read e };

    fn from(fault: ReadFault) -> TakeFault {
        TakeFault::Read(fault)
    }
}

impl Freshness {
    // What becomes of a report that is this to the entry of its origin, `own` if that is the root.
    pub fn verdict(self, own: bool) -> Taken
        ensures { result ≡ verdict self own }
    {
        match (self, own) {
            (Freshness::Newer, false) => Taken::Accepted,
            (Freshness::Newer, true) => Taken::Own,
            (Freshness::Duplicate, _) => Taken::Duplicate,
            (Freshness::Older, _) => Taken::Older,
        }
    }
}
