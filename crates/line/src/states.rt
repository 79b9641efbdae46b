ghost use Rattle.std.specs.Prelude.{◌<◌, ◌≤◌};

use crate::window::Window;
use std::fmt;

//             30 messages heard in a row              the other end's word: a notice is due
//   new ──> Down ──────────────────────────────> Ready ──────────────────────────────> Up
//             ^                                     │                                   │
//             └─────────────────────────────────────┴───────────────────────────────────┘
//               three or more of the last 20 messages missed: Down with no message heard

// Which line it is: the slot where it leaves this box, and the node at its other end. It never changes.
#[derive(Debug, PartialEq, Eq, Drop)]
pub(crate) struct Ends {
    pub(crate) slot: u8,
    pub(crate) neighbour: u8,
    ghost slots: { (1 ≤ slot) × (slot ≤ 8) },
    ghost nodes: { (1 ≤ neighbour) × (neighbour ≤ 64) },
}

// A good line, and what is watched of it.
#[derive(Debug, PartialEq, Eq, Drop)]
pub(crate) struct Watch {
    pub(crate) ends: Ends,
    pub(crate) window: Window,
}

// The line is not to be used. So many messages in a row were heard, up to now.
#[derive(Debug, PartialEq, Eq, Drop)]
pub struct Down {
    pub(crate) ends: Ends,
    pub(crate) heard: u8,
    ghost short: { heard < 30 },
}

// This end finds the line good; the other end has still to tell that it is not Down.
#[derive(Debug, PartialEq, Eq, Drop)]
pub struct Ready {
    pub(crate) watch: Watch,
}

// Both ends find the line good: its slot may be raised.
#[derive(Debug, PartialEq, Eq, Drop)]
pub struct Up {
    pub(crate) watch: Watch,
}

impl Up {
    ghost use Rattle.std.specs.Prelude.{◌≡◌};
    ghost use Rattle.line.specs.Moves.{shown};

    // The slot where the line leaves this box.
    pub fn slot(&self) -> u8
        ensures value { result ≡ (shown (Record.Up self.now)).slot }
        ensures bound { (1 ≤ result) × (result ≤ 8) }
    {
        self.watch.ends.slot
    }

    // The node at the line's other end.
    pub fn neighbour(&self) -> u8
        ensures value { result ≡ (shown (Record.Up self.now)).neighbour }
        ensures bound { (1 ≤ result) × (result ≤ 64) }
    {
        self.watch.ends.neighbour
    }
}

// A record in one of its states, for who keeps one over many events.
#[derive(Debug, PartialEq, Eq, Drop)]
pub enum Record {
    Down(Down),
    Ready(Ready),
    Up(Up),
}

impl fmt::Display for Record {
    ghost use Rattle.std.specs.Prelude.{Some};
    ghost use Rattle.line.specs.Moves.{shown, state_text};

    ghost output = { λ r. Some (state_text (shown r).state) };

    fn fmt<W: fmt::Write>(&self, f: &mut fmt::Formatter<W>) -> fmt::Result {
        match self {
            Record::Down(_) => write!(f, "down"),
            Record::Ready(_) => write!(f, "ready"),
            Record::Up(_) => write!(f, "up"),
        }
    }
}
