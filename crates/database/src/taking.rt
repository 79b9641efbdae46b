// Taking a report.
ghost use Rattle.std.specs.Prelude.{◌≡◌, ◌≤◌, length, Ok, Err, MatchResult};
ghost use Rattle.wire.specs.Reports.{Allowed, content, read_report};
ghost use Rattle.database.specs.States.{state};
ghost use Rattle.database.specs.Taking.{within, row_with, heard_entry, verdict_on, settled, take_answer, take_state};

use crate::types::Database;
use entries::entry::Entry;
use entries::verdicts::{TakeFault, Taken, Taking};
use rows::Row;
use rows::places::place;
use wire::fault::ReadFault;
use wire::report::{Header, Report};

// A report that was read: it says what a report may say.
#[derive(Clone, Copy)]
struct Heard<'a> {
    report: Report<'a>,
    ghost allowed: { ∥ Allowed (content report) ∥₁ },
}

impl<'a> Heard<'a> {
    // The report that the bytes hold; else the first question that is answered no.
    fn read(bytes: &'a [u8]) -> Result<Heard<'a>, ReadFault>
        ensures { MatchResult result (λ heard. read_report bytes.now ≡ Ok (content heard.report)) (λ fault. read_report bytes.now ≡ Err fault) }
    {
        let report = Report::read(bytes)?;
        Ok(Heard { report })
    }
}

impl Heard<'_> {
    // Asks whether the origin is within the count, and then each neighbour. The pairs of a report begin at byte 15, and take three
    // bytes each.
    fn within(&self, count: u8) -> Result<(), TakeFault>
        ensures { result ≡ within count (content self.now.report) }
    {
        if self.report.header.origin > count {
            return Err(TakeFault::Origin);
        }
        match self.report.lines().position(|line| line.neighbour > count) {
            Some(line) => Err(TakeFault::Neighbour {
                place: 15 + 3 * line,
            }),
            None => Ok(()),
        }
    }

    // The lines as a row.
    fn row(&self) -> Row
        ensures { result ≡ row_with (content self.now.report).lines }
    {
        let mut row = Row::new();
        for line in self.report.lines() {
            row.push(line).unwrap();
        }
        row
    }

    // The entry that the report makes.
    fn entry(&self) -> Entry
        ensures { result ≡ heard_entry (content self.now.report) }
    {
        let Header { serial, age, .. } = self.report.header;
        Entry {
            serial,
            age,
            row: self.row(),
        }
    }
}

impl Database {
    // Takes a report: reads it, asks whether it speaks of nodes within the count, and lets it replace the entry of its origin if it
    // is newer and not of the root's own number. A refusal changes nothing.
    pub fn take(&mut self, bytes: &[u8]) -> Result<Taking, TakeFault>
        ensures answer { result ≡ take_answer (state self.old) bytes.now }
        ensures left { state self.new ≡ take_state (state self.old) bytes.now }
    {
        let heard = Heard::read(bytes)?;
        heard.within(self.count)?;
        Ok(self.settle(&heard))
    }

    // What a report within the count does.
    fn settle(&mut self, heard: &Heard) -> Taking
        requires { Ok tt ≡ within self.old.count (content heard.now.report) }
        ensures answer { (result.header ≡ heard.now.report.header) × (result.taken ≡ verdict_on (state self.old) (content heard.now.report)) }
        ensures left { state self.new ≡ settled (state self.old) (content heard.now.report) result.taken }
    {
        let header = heard.report.header;
        let place = place(header.origin);
        let freshness = self.entries[place].compare(header.serial);
        let taken = freshness.verdict(header.origin == self.root);
        if taken == Taken::Accepted {
            self.entries[place] = heard.entry();
        }
        Taking { header, taken }
    }
}
