// The slots of a node, as it keeps them between calls, and what may be asked of them.
ghost use Rattle.std.specs.Prelude.{◌≡◌, map, length};
ghost use Rattle.slots.specs.Slots.{shown};
ghost use Rattle.ports.specs.Places.{Within, Apart};

use crate::reporting::figure_to;
use rows::places::place;
use slots::port::Slot;
use slots::threshold::Threshold;

// The eight slots. Each line goes to another node of the network, and no two go to the same.
#[derive(Debug, Drop, PartialEq, Eq)]
pub struct Ports {
    // The nodes of the network are numbered 1 to count; the root is the node that has these slots.
    pub(crate) count: u8,
    pub(crate) root: u8,
    pub(crate) slots: [Slot; 8],
    pub(crate) threshold: Threshold,
    ghost eight: { length slots ≡ 8 },
    ghost within: { Within count root (map shown slots) },
    ghost apart: { Apart (map shown slots) },
}

impl Ports {
    ghost use Rattle.ports.specs.Held.{held, fresh, slot_at};
    ghost use Rattle.ports.specs.Rows.{served};
    ghost use Rattle.slots.specs.Slots.{is_up, neighbour_of};

    // The slots of a node that has not begun to use them. Count and root are plain numbers here: any two are taken, as the node has asked.
    pub fn new(count: u8, root: u8) -> Ports
        ensures { held result ≡ fresh count root }
    {
        Ports {
            count,
            root,
            slots: [None; 8],
            threshold: Threshold::new(),
        }
    }

    // The slot of a number; unused where no slot has it.
    fn slot(&self, number: u8) -> Slot
        ensures { shown result ≡ slot_at (held self.now).slots number }
    {
        self.slots.get(place(number)).copied().flatten()
    }

    // Whether a slot is up.
    pub fn is_up(&self, slot: u8) -> bool
        ensures { result ≡ is_up (slot_at (held self.now).slots slot) }
    {
        self.slot(slot).is_some()
    }

    // The neighbour of a slot that is up.
    pub fn neighbour(&self, slot: u8) -> Option<u8>
        ensures { result ≡ neighbour_of (slot_at (held self.now).slots slot) }
    {
        self.slot(slot).map(|port| port.neighbour())
    }

    // Which slots are up, from the first.
    pub fn up_slots(&self) -> [bool; 8]
        ensures { result ≡ map is_up (held self.now).slots }
    {
        self.slots.map(|slot| slot.is_some())
    }

    // Whether some slot is up to a node.
    pub(crate) fn serves(&self, node: u8) -> bool
        ensures { result ≡ served node (held self.now).slots }
    {
        figure_to(&self.slots, node).is_some()
    }
}
