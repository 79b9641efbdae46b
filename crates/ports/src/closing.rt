// Closing a period.
ghost use Rattle.std.specs.Prelude.{◌≡◌, map, IfSome};
ghost use Rattle.ports.specs.Closing.{due, closing, closing_row};
ghost use Rattle.ports.specs.Held.{held};
ghost use Rattle.slots.specs.Lines.{begun};
ghost use Rattle.ports.specs.Rows.{Own};
ghost use Rattle.slots.specs.Slots.{shown};
ghost use Rattle.slots.specs.Thresholds.{threshold_of};

use crate::ports::Ports;
use rows::row::Row;
use slots::port::Slot;
use slots::threshold::Threshold;

// Whether a report is due.
fn is_due(threshold: Threshold, slots: &[Slot; 8]) -> bool
    ensures { result ≡ due (threshold_of threshold) (map shown slots.now) }
{
    threshold.is_zero()
        || slots
            .iter()
            .any(|slot| slot.is_some_and(|port| port.moved(threshold)))
}

// The slots as a new period begins.
fn all_begun(slots: [Slot; 8], report: bool) -> [Slot; 8]
    ensures { map shown result ≡ map (begun report) (map shown slots) }
{
    slots.map(|slot| slot.map(|port| port.begun(report)))
}

impl Ports {
    // Closes a period; the answer is the own report, if one is due.
    pub fn close(&mut self) -> Option<Row>
        ensures answer { result ≡ closing_row (held self.old) }
        ensures after { held self.new ≡ closing (held self.old) }
        ensures own { IfSome result (Own (held self.new)) }
    {
        let due = is_due(self.threshold, &self.slots);
        self.threshold = self.threshold.after_period(due);
        self.slots = all_begun(self.slots, due);
        due.then(|| self.own_row())
    }
}
