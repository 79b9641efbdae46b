// Why a call is refused: the first question that is answered no.
ghost use Rattle.std.specs.Prelude.{◌≡◌, ◌++◌, Some, codes, decimal};
ghost use Rattle.slots.specs.Refusals.{number_of};

use std::error::Error;
use std::fmt;

#[derive(Clone, Copy, Debug, PartialEq, Eq)]
pub enum Refusal {
    SlotOutOfRange = 21,
    SlotNotUp = 22,
    WordsOutOfRange = 31,
    SentBeforeArrival = 32,
    CountFull = 33,
    NeighbourBeyondCount = 35,
    NeighbourIsRoot = 36,
    SlotInUse = 37,
    NeighbourServed = 38,
    SpeedUnknown = 39,
    PropagationTooLong = 40,
}

impl Refusal {
    // The refusal's number.
    pub fn number(self) -> u8
        ensures { result ≡ number_of self }
    {
        self as u8
    }
}

impl fmt::Display for Refusal {
    ghost output = { λ refusal. Some (codes "refused " ++ decimal (number_of refusal)) };

    fn fmt<W: fmt::Write>(&self, f: &mut fmt::Formatter<W>) -> fmt::Result {
        // The same word as in every crate that refuses: a crate of its own for it would be no plainer.
        write!(f, "refused {}", self.number())
    }
}

impl Error for Refusal {}
