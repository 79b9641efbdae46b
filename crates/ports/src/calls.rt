// Raising and dropping a slot, and noting a delay on it.
ghost use Rattle.std.specs.Prelude.{◌≡◌, ◌≤◌, IfOk};
ghost use Rattle.timing.specs.Ranges.{units_of};
ghost use Rattle.ports.specs.Calls.{slot_of, neighbour_in, raising, up_line_at, dropping, noting_on, leaves_of, delay_in};
ghost use Rattle.ports.specs.Held.{held, put};
ghost use Rattle.slots.specs.Refusals.{on_ok, kept};
ghost use Rattle.ports.specs.Rows.{own_row, Own};
ghost use Rattle.slots.specs.Slots.{line_of, shown};
ghost use Rattle.ports.specs.Places.{Placeable};

use crate::ports::Ports;
use line::states::Up;
use rows::places::place;
use rows::row::Row;
use slots::port::{Port, Slot, circuit};
use slots::refusal::Refusal;
use timing::quantity::Delay;

impl Ports {
    // Replaces one slot, by one that goes with the others. Callers know that some slot has the number: a look-up would lose the line in silence.
    fn put(&mut self, number: u8, slot: Slot)
        requires slot { (1 ≤ number) × (number ≤ 8) }
        requires fits { Placeable (held self.old).count (held self.old).root (held self.old).slots number (shown slot) }
        ensures { held self.new ≡ put number (shown slot) (held self.old) }
    {
        self.slots[usize::from(number) - 1] = slot;
    }

    // The line of a slot that has to be up.
    fn up_port(&self, slot: u8) -> Result<Port, Refusal>
        ensures { on_ok line_of result ≡ up_line_at (held self.now).slots slot }
    {
        self.slots
            .get(place(slot))
            .ok_or(Refusal::SlotOutOfRange)?
            .ok_or(Refusal::SlotNotUp)
    }

    // Raises the slot of a line record in Up, which its holder keeps; the answer is the own report that is due then.
    pub fn raise(&mut self, line: &Up, speed: u8, propagation: u16) -> Result<Row, Refusal>
        ensures answer { result ≡ on_ok own_row (raising (held self.old) (slot_of line.now) (neighbour_in line.now) speed propagation) }
        ensures after { held self.new ≡ kept (held self.old) (raising (held self.old) (slot_of line.now) (neighbour_in line.now) speed propagation) }
        ensures own { IfOk result (Own (held self.new)) }
    {
        let slot = line.slot();
        let neighbour = line.neighbour();
        if neighbour > self.count {
            return Err(Refusal::NeighbourBeyondCount);
        }
        if neighbour == self.root {
            return Err(Refusal::NeighbourIsRoot);
        }
        if self.is_up(slot) {
            return Err(Refusal::SlotInUse);
        }
        if self.serves(neighbour) {
            return Err(Refusal::NeighbourServed);
        }
        let circuit = circuit(speed, propagation)?;
        self.put(slot, Some(Port::raised(neighbour, circuit)));
        Ok(self.report())
    }

    // Marks a slot unused; the answer is the own report that is due then.
    pub fn drop_slot(&mut self, slot: u8) -> Result<Row, Refusal>
        ensures answer { result ≡ on_ok own_row (dropping (held self.old) slot) }
        ensures after { held self.new ≡ kept (held self.old) (dropping (held self.old) slot) }
        ensures own { IfOk result (Own (held self.new)) }
    {
        self.up_port(slot)?;
        self.put(slot, None);
        Ok(self.report())
    }

    // Notes the delay of a packet that was sent on a slot; the answer is that delay. The packet's three numbers stand by themselves,
    // down to the line's delay, since a question of its own is asked of each.
    pub fn note(&mut self, slot: u8, arrived: u32, sent: u32, words: u8) -> Result<Delay, Refusal>
        ensures answer { on_ok units_of result ≡ on_ok delay_in (noting_on (held self.old) slot arrived sent words) }
        ensures after { held self.new ≡ kept (held self.old) (on_ok leaves_of (noting_on (held self.old) slot arrived sent words)) }
    {
        let port = self.up_port(slot)?;
        let delay = port.delay(arrived, sent, words)?;
        let noted = port.noted(delay)?;
        self.put(slot, Some(noted));
        Ok(delay)
    }
}
