// How a box uses line records: what it keeps, what it hands on. The edits in .ci/misuses turn these few lines into misuses
// that the compiler has to refuse: a record in Down or Ready where one in Up is asked for, a record used twice, a forged one.

#![tactic(auto)]

ghost use Rattle.std.specs.Prelude.{◌≡◌, replicate};
ghost use Rattle.line.specs.Moves.{shown, after_message, after_messages};
ghost use Rattle.line_example.specs.Uses.{raisable_line};

use line::messages::Message;
use line::states::{Down, Record, Up};

// The slot and the neighbour of a line whose slot may be raised: only a record in Up gives them, and its holder keeps it.
pub fn raisable(record: &Record) -> Option<(u8, u8)>
    ensures { result ≡ raisable_line (shown «record».now) }
{
    match record {
        Record::Up(up) => Some((up.slot(), up.neighbour())),
        Record::Ready(_) => None,
        Record::Down(_) => None,
    }
}

// A record after a message missed and one heard.
pub fn shaken(record: Record) -> Record
    ensures { shown result ≡ after_message (after_message (shown «record») Message.Missed) Message.Heard }
{
    record.after(Message::Missed).after(Message::Heard)
}

// A record in Down after 30 messages heard.
pub fn heard_out(down: Down) -> Record
    ensures { shown result ≡ after_messages (shown (Record.Down down)) (replicate 30 Message.Heard) }
{
    Record::Down(down).repeated(Message::Heard, 30)
}
