// A line of a script as a command.
use line::messages::Message;
use script::{Words, decode_hex, number};
use std::alloc::{AllocError, Global};
use std::fmt;
use thiserror::Error;

// The buffers of the bench: their length where none is given, and at most.
const LENGTH: u32 = 64;

const LENGTH_LIMIT: u32 = 1000;

// How often a test message comes at most in one command.
const TIMES_LIMIT: u32 = 1_000_000;

#[derive(Drop)]
pub(crate) enum Command {
    Read {
        bytes: Vec<u8>,
    },
    Rewrite {
        bytes: Vec<u8>,
        length: usize,
    },
    Line {
        slot: u8,
        neighbour: u8,
    },
    Test {
        slot: u8,
        message: Message,
        times: u32,
    },
    Told {
        slot: u8,
    },
}

// Which command a line names. It prints as the command's form.
#[derive(Clone, Copy, Debug)]
pub(crate) enum Verb {
    Read,
    Rewrite,
    Line,
    Test(Message),
    Told,
}

impl TryFrom<&[u8]> for Verb {
    type Error = Mistake;

    fn try_from(name: &[u8]) -> Result<Verb, Mistake> {
        match name {
            b"read" => Ok(Verb::Read),
            b"rewrite" => Ok(Verb::Rewrite),
            b"line" => Ok(Verb::Line),
            b"heard" => Ok(Verb::Test(Message::Heard)),
            b"missed" => Ok(Verb::Test(Message::Missed)),
            b"told" => Ok(Verb::Told),
            _ => Err(Mistake::UnknownCommand),
        }
    }
}

impl fmt::Display for Verb {
    fn fmt<W: fmt::Write>(&self, f: &mut fmt::Formatter<W>) -> fmt::Result {
        match self {
            Verb::Read => write!(f, "read HEX"),
            Verb::Rewrite => write!(f, "rewrite HEX [LENGTH]"),
            Verb::Line => write!(f, "line SLOT NEIGHBOUR"),
            Verb::Test(Message::Heard) => write!(f, "heard SLOT [TIMES]"),
            Verb::Test(Message::Missed) => write!(f, "missed SLOT [TIMES]"),
            Verb::Told => write!(f, "told SLOT"),
        }
    }
}

// Why a line is no command, or cannot be obeyed. A verb is the command that was meant.
#[derive(Clone, Copy, Debug, Error)]
pub(crate) enum Mistake {
    #[error("unknown command; there are read, rewrite, line, heard, missed and told")]
    UnknownCommand,
    #[error("too few words: {0}")]
    TooFewWords(Verb),
    #[error("too many words: {0}")]
    TooManyWords(Verb),
    #[error("neither pairs of hexadecimal digits nor -: {0}")]
    NotHex(Verb),
    #[error("no number: {0}")]
    NotNumber(Verb),
    #[error("number above {0}: {1}")]
    TooLarge(u32, Verb),
    #[error("no line record in slot {0}")]
    NoRecord(u8),
    #[error("out of memory")]
    OutOfMemory(#[from(alloc)] AllocError),
}

// The words behind the command's name, taken one by one.
#[derive(Drop)]
struct Arguments<'a> {
    heap: Global,
    words: Words<'a>,
    verb: Verb,
}

impl<'a> Arguments<'a> {
    fn word(&mut self) -> Result<&'a [u8], Mistake> {
        self.words.next().ok_or(Mistake::TooFewWords(self.verb))
    }

    fn bytes(&mut self) -> Result<Vec<u8>, Mistake> {
        decode_hex(self.heap, self.word()?)?.ok_or(Mistake::NotHex(self.verb))
    }

    fn number(&self, word: &[u8]) -> Result<u64, Mistake> {
        number(word, u64::MAX).ok_or(Mistake::NotNumber(self.verb))
    }

    // A number that the call takes as a byte: a larger one goes in as the largest, and the call refuses it.
    fn byte(&mut self) -> Result<u8, Mistake> {
        let word = self.word()?;
        Ok(u8::try_from(self.number(word)?).unwrap_or(u8::MAX))
    }

    // A number that may be left out, and has a limit.
    fn up_to(&mut self, limit: u32, usual: u32) -> Result<u32, Mistake> {
        let Some(word) = self.words.next() else {
            return Ok(usual);
        };
        u32::try_from(self.number(word)?)
            .ok()
            .filter(|n| *n <= limit)
            .ok_or(Mistake::TooLarge(limit, self.verb))
    }

    fn end(&mut self) -> Result<(), Mistake> {
        if self.words.next().is_some() {
            return Err(Mistake::TooManyWords(self.verb));
        }
        Ok(())
    }

    // The command of which these are the words. A match: each verb asks for words of its own.
    fn command(&mut self) -> Result<Command, Mistake> {
        let command = match self.verb {
            Verb::Read => Command::Read {
                bytes: self.bytes()?,
            },
            Verb::Rewrite => Command::Rewrite {
                bytes: self.bytes()?,
                length: self.up_to(LENGTH_LIMIT, LENGTH)? as usize,
            },
            Verb::Line => Command::Line {
                slot: self.byte()?,
                neighbour: self.byte()?,
            },
            Verb::Test(message) => Command::Test {
                slot: self.byte()?,
                message,
                times: self.up_to(TIMES_LIMIT, 1)?,
            },
            Verb::Told => Command::Told { slot: self.byte()? },
        };
        self.end()?;
        Ok(command)
    }
}

impl Command {
    // The command that a line holds; none in a blank line or a comment.
    pub(crate) fn parse(heap: Global, line: &[u8]) -> Result<Option<Command>, Mistake> {
        if line.starts_with(b"#") {
            return Ok(None);
        }
        let mut words = Words::new(line);
        let Some(name) = words.next() else {
            return Ok(None);
        };
        let verb = Verb::try_from(name)?;
        Ok(Some(Arguments { heap, words, verb }.command()?))
    }
}
