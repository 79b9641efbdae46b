ghost use Rattle.std.specs.Prelude.{◌^◌, ◌<◌, count_ones};

use crate::messages::Message;

// The 20 bits of a window.
const MASK: u32 = 0xf_ffff;

// So many misses among the last 20 send a line Down.
const TOO_MANY: u32 = 3;

// The last 20 messages, a bit for each: the newest is the lowest, and a message that was missed has a 1.
#[derive(Debug, PartialEq, Eq, Drop)]
pub(crate) struct Window {
    pub(crate) missed: u32,
    ghost narrow: { missed < 2 ^ 20 },
    ghost few: { count_ones missed < 3 },
}

impl Window {
    ghost use Rattle.std.specs.Prelude.{◌≡◌};
    ghost use Rattle.line.specs.Messages.{clear};
    ghost use Rattle.line.specs.Windows.{held, held_of, pushed};

    // At Ready: none of the last 20 missed.
    #[tactic(auto, unfolding(crate::specs::Windows::held_in))]
    pub(crate) fn new() -> Window
        ensures { held result ≡ clear }
    {
        Window { missed: 0 }
    }

    // The window with one message more, the oldest leaving it; none where three or more of the last 20 were missed.
    pub(crate) fn after(self, message: Message) -> Option<Window>
        ensures { held_of result ≡ pushed (held self) message }
    {
        let missed = ((self.missed << 1) | message as u32) & MASK;
        // An `if`: the proof of a closure for `then` would not know that few were missed.
        if missed.count_ones() < TOO_MANY {
            Some(Window { missed })
        } else {
            None
        }
    }
}
