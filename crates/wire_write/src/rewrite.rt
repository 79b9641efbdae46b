// Reading a report and writing it again, which gives the same bytes.
ghost use Rattle.std.specs.Prelude.{◌≡◌, Some};
ghost use Rattle.wire_write.specs.Rewriting.{rewrite_answer, rewrite_buffer, rewrite_number, rewrite_text};
ghost use Rattle.wire_write.specs.declared.rewrite.RewriteFault.TheVariants.{Read, Write};

use crate::write::{WriteFault, write_report};
use std::error::Error;
use std::fmt;
use wire::fault::ReadFault;
use wire::report::Report;

// What refuses a rewriting: the reading or the writing.
#[derive(Clone, Copy, Debug, PartialEq, Eq)]
pub enum RewriteFault {
    Read(ReadFault),
    Write(WriteFault),
}

impl RewriteFault {
    // The number by which the rewriting is refused. A match, since variants that hold a value have no number to read by `as`.
    pub fn number(self) -> u8
        ensures { result ≡ rewrite_number self }
    {
        match self {
            RewriteFault::Read(fault) => fault.question.number(),
            RewriteFault::Write(fault) => fault.number(),
        }
    }
}

// A rewriting that was refused prints as what refused it: only a reading has a place.
impl fmt::Display for RewriteFault {
    ghost output = { λ e. Some (rewrite_text e) };

    fn fmt<W: fmt::Write>(&self, f: &mut fmt::Formatter<W>) -> fmt::Result {
        match self {
            RewriteFault::Read(fault) => fault.fmt(f),
            RewriteFault::Write(fault) => fault.fmt(f),
        }
    }
}

impl Error for RewriteFault {}

// By hand, as the next: a derived `From` promises nothing of what it makes.
impl From<ReadFault> for RewriteFault {
    ghost from_gives = { λ e r. r ≡ Read e };

    fn from(fault: ReadFault) -> RewriteFault {
        RewriteFault::Read(fault)
    }
}

impl From<WriteFault> for RewriteFault {
    ghost from_gives = { λ e r. r ≡ Write e };

    fn from(fault: WriteFault) -> RewriteFault {
        RewriteFault::Write(fault)
    }
}

// Reads the bytes and writes the report that was read: the very bytes that came in stand at the start of the buffer.
pub fn rewrite(bytes: &[u8], out: &mut [u8]) -> Result<usize, RewriteFault>
    ensures answer { result ≡ rewrite_answer bytes.now out.old }
    ensures buffer { out.new ≡ rewrite_buffer bytes.now out.old }
{
    let report = Report::read(bytes)?;
    Ok(write_report(&report, out)?)
}
