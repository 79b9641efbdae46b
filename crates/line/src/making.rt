ghost use Rattle.std.specs.Prelude.{◌≡◌, Some};
ghost use Rattle.line.specs.Moves.{shown, fresh};
ghost use Rattle.line.specs.Making.{number_of, refusal_text, answer, making};

use crate::states::{Down, Ends, Record};
use std::error::Error;
use std::fmt;

// Why no record is made, by the refusal's number.
#[derive(Clone, Copy, Debug, PartialEq, Eq)]
pub enum Refusal {
    Slot = 51,
    Neighbour = 52,
}

impl Refusal {
    // The refusal's number.
    pub fn number(self) -> u8
        ensures { result ≡ number_of self }
    {
        self as u8
    }
}

impl fmt::Display for Refusal {
    ghost output = { λ refusal. Some (refusal_text refusal) };

    fn fmt<W: fmt::Write>(&self, f: &mut fmt::Formatter<W>) -> fmt::Result {
        // The same word as in every crate that refuses: a crate of its own for it would be no plainer.
        write!(f, "refused {}", self.number())
    }
}

impl Error for Refusal {}

impl Down {
    // A new record: slot in 1 to 8? neighbour in 1 to 64? The first no decides.
    pub fn new(slot: u8, neighbour: u8) -> Result<Down, Refusal>
        ensures { answer result ≡ making slot neighbour }
    {
        if !(1..=8).contains(&slot) {
            return Err(Refusal::Slot);
        }
        if !(1..=64).contains(&neighbour) {
            return Err(Refusal::Neighbour);
        }
        Ok(Down::fresh(Ends { slot, neighbour }))
    }

    // Down, with no message heard.
    pub(crate) fn fresh(ends: Ends) -> Down
        ensures { shown (Record.Down result) ≡ fresh ends.slot ends.neighbour }
    {
        Down { ends, heard: 0 }
    }
}
