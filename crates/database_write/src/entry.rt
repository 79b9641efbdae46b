// Writing the report of an entry.
ghost use Rattle.std.specs.Prelude.{◌≡◌, take, IfOk, Ok, Some};
ghost use Rattle.wire.specs.Reports.{read_report};
ghost use Rattle.database.specs.States.{state};
ghost use Rattle.database_write.specs.Writing.{entry_number, entry_text, report_of, entry_answer, entry_buffer};
ghost use Rattle.database_write.specs.declared.entry.EntryFault.TheVariants.{Write};

use database::Database;
use std::error::Error;
use std::fmt;
use wire::report::Header;
use wire_write::write::{Draft, WriteFault, write_draft};

// Why no report is written.
#[derive(Clone, Copy, Debug, PartialEq, Eq)]
pub enum EntryFault {
    // The origin is not in 1 to the count.
    Origin,
    // The entry's age is 0.
    Lapsed,
    // The buffer is too short.
    Write(WriteFault),
}

impl EntryFault {
    // The refusal's number. A match, since variants that hold a value have no number to read by `as`.
    pub fn number(self) -> u8
        ensures { result ≡ entry_number self }
    {
        match self {
            EntryFault::Origin => 25,
            EntryFault::Lapsed => 26,
            EntryFault::Write(fault) => fault.number(),
        }
    }
}

impl fmt::Display for EntryFault {
    ghost output = { λ fault. Some (entry_text fault) };

    fn fmt<W: fmt::Write>(&self, f: &mut fmt::Formatter<W>) -> fmt::Result {
        // The same word as in every crate that refuses: a crate of its own for it would be no plainer.
        write!(f, "refused {}", self.number())
    }
}

impl Error for EntryFault {}

// By hand: a derived `From` promises nothing of what it makes.
impl From<WriteFault> for EntryFault {
    ghost from_gives = { λ e r. r ≡ Write e };

    fn from(fault: WriteFault) -> EntryFault {
        EntryFault::Write(fault)
    }
}

// Puts the report of the origin's entry at the start of the buffer, with the retry flag as the caller says, alters nothing behind
// it, and answers its length. Origin in 1 to the count? Age above 0? Buffer long enough? A refusal leaves the buffer as it was.
pub fn write_entry(
    database: &Database,
    origin: u8,
    retry: bool,
    out: &mut [u8],
) -> Result<usize, EntryFault>
    ensures answer { result ≡ entry_answer (state database.now) origin retry out.old }
    ensures buffer { out.new ≡ entry_buffer (state database.now) origin retry out.old }
    ensures reads_back { IfOk result (λ n. read_report (take n out.new) ≡ Ok (report_of (state database.now) origin retry)) }
{
    let entry = database.entry(origin).ok_or(EntryFault::Origin)?;
    if entry.age == 0 {
        return Err(EntryFault::Lapsed);
    }
    let header = Header {
        origin,
        serial: entry.serial,
        age: entry.age,
        retry,
    };
    let lines = entry.row.lines();
    Ok(write_draft(&Draft { header, lines }, out)?)
}
