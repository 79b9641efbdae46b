// A report: who reports, which of its reports it is, how old it is, and the lines that leave the origin.
ghost use Rattle.std.specs.Prelude.{◌≡◌, ◌≤◌, length, IfOk, MatchResult};
ghost use Rattle.wire.specs.Fields.{LiesAt};
ghost use Rattle.wire.specs.Lines.{lines_of, pair_bytes};
ghost use Rattle.wire.specs.Reports.{Content, judge_lines, read_report, shown_report, content};
ghost use Rattle.wire.specs.Laws.{Forms};

use crate::fault::{Question, ReadFault};
use crate::field::{Field, Tag, read_field};
use crate::lines::Lines;

// What stands before the lines of a report.
#[derive(Clone, Copy, Debug, PartialEq, Eq)]
pub struct Header {
    pub origin: u8,
    pub serial: u8,
    pub age: u8,
    pub retry: bool,
}

// A report that was read: the pairs of neighbour and figure are that very part of the caller's bytes.
#[derive(Clone, Copy, Debug, PartialEq, Eq)]
pub struct Report<'a> {
    pub header: Header,
    pub pairs: &'a [u8],
}

// Asks of each line whether its neighbour is permitted and its figure is not 0. The pairs begin at byte 15 of a report.
fn check_lines(origin: u8, lines: Lines) -> Result<(), ReadFault>
    requires { length (lines_of lines.rest.now) ≤ 8 }
    ensures { result ≡ judge_lines origin 0 15 (lines_of lines.entry.rest.now) }
{
    let mut previous = 0;
    for (i, line) in lines.enumerate() {
        let place = 15 + 3 * i;
        if line.neighbour <= previous || line.neighbour > 64 || line.neighbour == origin {
            return Err(Question::PermittedNeighbour.at(place));
        }
        if line.figure == 0 {
            return Err(Question::FigureNotZero.at(place + 1));
        }
        previous = line.neighbour;
    }
    Ok(())
}

impl<'a> Report<'a> {
    // The report that the bytes hold, and nothing more; else the first question that is answered no.
    pub fn read(bytes: &'a [u8]) -> Result<Report<'a>, ReadFault>
        ensures value { shown_report result ≡ read_report bytes.now }
        ensures exactly { MatchResult result (λ q. Forms bytes.now (content q)) (λ _. (q : Content) → Forms bytes.now q → ⊥) }
        ensures part { IfOk result (λ q. LiesAt bytes.entry 15 q.pairs) }
        ensures whole { IfOk result (λ q. q.pairs.now ≡ pair_bytes (content q).lines) }
    {
        let origin = read_field(bytes, 0, Tag::Origin)?;
        let serial = read_field(bytes, 4, Tag::Serial)?;
        let age = read_field(bytes, 8, Tag::Age)?;
        let pairs = read_field(bytes, 12, Tag::Pairs)?;
        let (
            Field::Origin(origin),
            Field::Serial(serial),
            Field::Age { age, retry },
            Field::Pairs(pairs),
        ) = (origin, serial, age, pairs) else {
            unreachable!()
        };
        check_lines(origin, Lines::of(pairs))?;
        let end = 15 + pairs.len();
        if end < bytes.len() {
            return Err(Question::NothingLeftOver.at(end));
        }
        Ok(Report {
            header: Header {
                origin,
                serial,
                age,
                retry,
            },
            pairs,
        })
    }

    // The lines of the report, one by one.
    pub fn lines(&self) -> Lines<'a>
        ensures { lines_of result.rest.now ≡ (content self.now).lines }
    {
        Lines::of(self.pairs)
    }
}
