ghost use Rattle.std.specs.Prelude.{◌≡◌, List};
ghost use Rattle.line.specs.Moves.{State, shown, watching, watched, keeping, after_message, after_word, outcome};
ghost use Rattle.line.specs.Windows.{held, pushed};
ghost use Rattle.line.specs.declared.messages.Message.{Message};

use crate::messages::Message;
use crate::states::{Down, Ready, Record, Up, Watch};
use crate::window::Window;

// So many messages heard in a row make a line Ready.
const IN_A_ROW: u8 = 30;

impl Down {
    // One test message more.
    pub fn after(self, message: Message) -> Record
        ensures { shown result ≡ after_message (shown (Record.Down self)) message }
    {
        let Down { ends, heard } = self;
        match message {
            Message::Missed => Record::Down(Down::fresh(ends)),
            Message::Heard if heard + 1 == IN_A_ROW => {
                let window = Window::new();
                Record::Ready(Ready {
                    watch: Watch { ends, window },
                })
            }
            Message::Heard => Record::Down(Down {
                ends,
                heard: heard + 1,
            }),
        }
    }
}

impl Watch {
    // One test message more: the watch goes on, or the line goes Down. A match, since the ends go with either.
    fn after(self, message: Message) -> Result<Watch, Down>
        ensures { (in_state : List Message → State) → watched in_state result ≡ record (watching in_state self) { state = keeping in_state (pushed (held self.window) message) } }
    {
        let Watch { ends, window } = self;
        match window.after(message) {
            Some(window) => Ok(Watch { ends, window }),
            None => Err(Down::fresh(ends)),
        }
    }
}

impl Ready {
    // One test message more.
    pub fn after(self, message: Message) -> Record
        ensures { shown result ≡ after_message (shown (Record.Ready self)) message }
    {
        self.watch
            .after(message)
            .map_or_else(Record::Down, |watch| Record::Ready(Ready { watch }))
    }

    // The other end tells that it is not Down: a notice to it is due.
    pub fn told(self) -> Up
        ensures { outcome (Ok result) ≡ after_word (shown (Record.Ready self)) }
    {
        Up { watch: self.watch }
    }
}

impl Up {
    // One test message more.
    pub fn after(self, message: Message) -> Record
        ensures { shown result ≡ after_message (shown (Record.Up self)) message }
    {
        self.watch
            .after(message)
            .map_or_else(Record::Down, |watch| Record::Up(Up { watch }))
    }
}

impl Record {
    // One test message more. A match: the states are these three, and each has its own step.
    pub fn after(self, message: Message) -> Record
        ensures { shown result ≡ after_message (shown self) message }
    {
        match self {
            Record::Down(down) => down.after(message),
            Record::Ready(ready) => ready.after(message),
            Record::Up(up) => up.after(message),
        }
    }

    // The other end tells that it is not Down: Ready becomes Up, and a notice to the other end is due; any other record is
    // given back as it was, and no notice is due.
    pub fn told(self) -> Result<Up, Record>
        ensures { outcome result ≡ after_word (shown self) }
    {
        match self {
            Record::Ready(ready) => Ok(ready.told()),
            other => Err(other),
        }
    }
}
