// What a command answers, as the text of one line.
use crate::bench::Bench;
use crate::command::{Command, Mistake};
use line::messages::Message;
use line::states::{Down, Record};
use script::encode_hex;
use std::alloc::AllocError;
use std::fmt;
use wire::report::{Header, Report};
use wire_write::rewrite::rewrite;

// A report as the console prints it.
#[derive(Drop)]
struct ReportLine<'a>(Report<'a>);

impl fmt::Display for ReportLine<'_> {
    fn fmt<W: fmt::Write>(&self, f: &mut fmt::Formatter<W>) -> fmt::Result {
        let ReportLine(report) = self;
        let Header {
            origin,
            serial,
            age,
            retry,
        } = report.header;
        let retry = u8::from(retry);
        write!(
            f,
            "report origin {origin} serial {serial} age {age} retry {retry} lines"
        )?;
        if report.pairs.is_empty() {
            write!(f, " none")?;
        }
        for line in report.lines() {
            write!(f, " {}:{}", line.neighbour, line.figure)?;
        }
        Ok(())
    }
}

impl Bench {
    // The answer to a line; none to a blank line or a comment.
    pub(crate) fn respond(&mut self, line: &[u8]) -> Result<Option<String>, Mistake> {
        Command::parse(self.heap, line)?
            .map(|command| self.answer(command))
            .transpose()
    }

    // A match: the commands are a closed set, and an arm names what it needs.
    fn answer(&mut self, command: Command) -> Result<String, Mistake> {
        match command {
            Command::Read { bytes } => Ok(self.read(bytes.as_slice())?),
            Command::Rewrite { bytes, length } => Ok(self.rewrite(bytes.as_slice(), length)?),
            Command::Line { slot, neighbour } => Ok(self.line(slot, neighbour)?),
            Command::Test {
                slot,
                message,
                times,
            } => self.test(slot, message, times),
            Command::Told { slot } => self.told(slot),
        }
    }

    fn read(&self, bytes: &[u8]) -> Result<String, AllocError> {
        match Report::read(bytes) {
            Ok(report) => ReportLine(report).to_string(self.heap),
            Err(fault) => fault.to_string(self.heap),
        }
    }

    fn rewrite(&self, bytes: &[u8], length: usize) -> Result<String, AllocError> {
        let mut buffer = vec![in self.heap; 0u8; length]?;
        match rewrite(bytes, &mut buffer) {
            Ok(written) => {
                let hex = encode_hex(self.heap, &buffer[..written])?;
                format!(in self.heap; "wrote {written} {hex}")
            }
            Err(fault) => fault.to_string(self.heap),
        }
    }

    fn line(&mut self, slot: u8, neighbour: u8) -> Result<String, AllocError> {
        match Down::new(slot, neighbour) {
            Ok(down) => self.keep(slot, Record::Down(down)),
            Err(refusal) => refusal.to_string(self.heap),
        }
    }

    fn test(&mut self, slot: u8, message: Message, times: u32) -> Result<String, Mistake> {
        let record = self.take(slot)?.repeated(message, times);
        Ok(self.keep(slot, record)?)
    }

    fn told(&mut self, slot: u8) -> Result<String, Mistake> {
        match self.take(slot)?.told() {
            Ok(up) => {
                let mut answer = self.keep(slot, Record::Up(up))?;
                answer.push_str(" notice")?;
                Ok(answer)
            }
            Err(record) => Ok(self.keep(slot, record)?),
        }
    }
}
