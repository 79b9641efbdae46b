// Why bytes are no report. The numbers stand in specs/Faults.antt and in the enum, and nowhere else.
ghost use Rattle.std.specs.Prelude.{◌≡◌, Some};
ghost use Rattle.wire.specs.Faults.{read_number, no_at, question_text, fault_text};

use std::error::Error;
use std::fmt;

// The questions that reading asks, by the numbers of their refusals. The first that is answered no decides.
#[derive(Clone, Copy, Debug, PartialEq, Eq)]
pub enum Question {
    ThreeBytesLeft = 11,
    ExpectedTag = 12,
    PermittedLength = 13,
    ValueAllThere = 14,
    PermittedValue = 15,
    PermittedNeighbour = 16,
    FigureNotZero = 17,
    NothingLeftOver = 18,
}

impl Question {
    // The number by which the question is refused.
    pub fn number(self) -> u8
        ensures { result ≡ read_number self }
    {
        self as u8
    }

    // A no to this question, asked of the byte at `place`. A method, so that it reads as it prints.
    pub(crate) fn at(self, place: usize) -> ReadFault
        ensures { result ≡ no_at self place }
    {
        ReadFault {
            question: self,
            place,
        }
    }
}

// A question that was answered no prints as its refusal.
impl fmt::Display for Question {
    ghost output = { λ q. Some (question_text q) };

    fn fmt<W: fmt::Write>(&self, f: &mut fmt::Formatter<W>) -> fmt::Result {
        // The same word as in every crate that refuses: a crate of its own for it would be no plainer.
        write!(f, "refused {}", self.number())
    }
}

impl Error for Question {}

// A question that was answered no, and the byte, counted from 0, that it was asked of.
#[derive(Clone, Copy, Debug, PartialEq, Eq)]
pub struct ReadFault {
    pub question: Question,
    pub place: usize,
}

impl fmt::Display for ReadFault {
    ghost output = { λ e. Some (fault_text e) };

    fn fmt<W: fmt::Write>(&self, f: &mut fmt::Formatter<W>) -> fmt::Result {
        let question = self.question;
        let place = self.place;
        write!(f, "{question} at {place}")
    }
}

impl Error for ReadFault {}
