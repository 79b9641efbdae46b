// The lines of an own report.
ghost use Rattle.std.specs.Prelude.{◌≡◌, map, option_map};
ghost use Rattle.timing.specs.Ranges.{units_of};
ghost use Rattle.ports.specs.Held.{held};
ghost use Rattle.ports.specs.Rows.{figure_to, own_row, reporting, Own};
ghost use Rattle.slots.specs.Slots.{shown};

use crate::ports::Ports;
use rows::row::Row;
use slots::port::Slot;
use slots::threshold::Threshold;
use timing::quantity::Delay;
use wire::lines::Line;

// The reported figure of the slot that is up to a node.
pub(crate) fn figure_to(slots: &[Slot; 8], node: u8) -> Option<Delay>
    ensures { option_map units_of result ≡ figure_to node (map shown slots.now) }
{
    slots
        .iter()
        .find_map(|slot| slot.and_then(|port| port.figure_for(node)))
}

impl Ports {
    // The up slots' lines, node by node: at most eight, since no two go to the same. So they rise by themselves; slots sorted in
    // place would be no plainer.
    pub(crate) fn own_row(&self) -> Row
        ensures { Own (held self.now) result }
    {
        let mut row = Row::new();
        for neighbour in 1..=self.count {
            if let Some(figure) = figure_to(&self.slots, neighbour) {
                let figure = figure.units();
                row.push(Line { neighbour, figure }).unwrap();
            }
        }
        row
    }

    // An own report: its lines. The threshold goes back to 640.
    pub fn report(&mut self) -> Row
        ensures answer { result ≡ own_row (held self.old) }
        ensures after { held self.new ≡ reporting (held self.old) }
        ensures own { Own (held self.new) result }
    {
        self.threshold = Threshold::new();
        self.own_row()
    }
}
