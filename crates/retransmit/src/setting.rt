// What sets the timers.
ghost use Rattle.std.specs.Prelude.{◌≡◌, ◌≤◌};
ghost use Rattle.retransmit.specs.Timers.{no_timers, timer_of, flooded, acknowledged, dropped};

use crate::timers::Timers;
use rows::places::place;

// The setting of a timer when its report is sent.
pub(crate) const FULL: u8 = 3;

// By hand, since a type with facts derives none.
impl Default for Timers {
    ghost is_default = { λ timers. timers.left ≡ no_timers };

    fn default() -> Timers {
        Timers::new()
    }
}

impl Timers {
    // No report is to be sent again.
    pub fn new() -> Timers
        ensures { result.left ≡ no_timers }
    {
        Timers { left: [[0; 64]; 8] }
    }

    // The timer of a slot and an origin; 0 where there are none such.
    pub fn timer(&self, slot: u8, origin: u8) -> u8
        ensures value { result ≡ timer_of self.now.left slot origin }
        ensures low { result ≤ 3 }
    {
        self.left
            .get(place(slot))
            .and_then(|timers| timers.get(place(origin)))
            .copied()
            .unwrap_or(0)
    }

    // A report of the origin is sent on the slots of the set: its timers there become 3, and that of the slot of arrival 0. Nothing
    // happens for an origin that is not in 1 to 64.
    pub fn flood(&mut self, origin: u8, slots: [bool; 8], arrival: Option<u8>)
        ensures { self.new.left ≡ flooded origin slots arrival self.old.left }
    {
        // Asked once, and not by a look-up for each slot.
        let place = place(origin);
        if place >= 64 {
            return;
        }
        // The set is indexed: through a `zip` of `iter_mut()` the proof loses what the timers then hold.
        for (slot, timers) in self.left.iter_mut().enumerate() {
            if arrival == Some(slot as u8 + 1) {
                timers[place] = 0;
            } else if slots[slot] {
                timers[place] = FULL;
            }
        }
    }

    // A duplicate of the origin's report came in on the slot, so it is known there: that timer becomes 0. Nothing happens for a slot
    // that is not in 1 to 8, or an origin that is not in 1 to 64.
    pub fn acknowledge(&mut self, slot: u8, origin: u8)
        ensures { self.new.left ≡ acknowledged slot origin self.old.left }
    {
        // By places: the proof of a look-up in a look-up would lose what the timers then hold.
        let (slot, origin) = (place(slot), place(origin));
        if slot < 8 && origin < 64 {
            self.left[slot][origin] = 0;
        }
    }

    // All timers of the slot become 0. Nothing happens for a slot that is not in 1 to 8.
    pub fn drop_slot(&mut self, slot: u8)
        ensures { self.new.left ≡ dropped slot self.old.left }
    {
        let slot = place(slot);
        if slot < 8 {
            self.left[slot] = [0; 64];
        }
    }
}
