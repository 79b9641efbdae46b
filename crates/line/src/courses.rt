ghost use Rattle.std.specs.Prelude.{◌≡◌, replicate};
ghost use Rattle.std.specs.Iterator.{IsFinite};
ghost use Rattle.std.specs.Iterator.Runs.{WholeRun};
ghost use Rattle.line.specs.Moves.{shown, after_messages};
ghost use Rattle.line.specs.Courses.{Course, Whole, Counts, Passed};

use crate::messages::Message;
use crate::states::Record;
use std::iter;

impl Record {
    // All the messages that an iterator gives, in their order.
    fn after_each<I: Iterator<Item = Message>>(self, messages: I) -> Record
        requires can { I.can_next messages }
        requires ends { IsFinite (I.remaining messages) }
        ensures { WholeRun I.next_gives messages (λ p. Passed self p.items result) }
    {
        messages.fold(self, Record::after)
    }

    // All the messages, in their order.
    pub fn after_all(self, messages: &[Message]) -> Record
        ensures run { shown result ≡ after_messages (shown self) messages.now }
        ensures course { Course (shown self).state messages.now (shown result).state }
        ensures whole { Whole (shown self).state messages.now (shown result).state }
        ensures counts { Counts result }
    {
        self.after_each(messages.iter().copied())
    }

    // The same message a number of times.
    pub fn repeated(self, message: Message, times: u32) -> Record
        ensures run { shown result ≡ after_messages (shown self) (replicate times message) }
        ensures course { Course (shown self).state (replicate times message) (shown result).state }
        ensures whole { Whole (shown self).state (replicate times message) (shown result).state }
        ensures counts { Counts result }
    {
        self.after_each(iter::repeat_n(message, times as usize))
    }
}
