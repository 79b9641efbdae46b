// Lines of known speed and propagation, and their delays.
ghost use Rattle.std.specs.Prelude.{◌≡◌, ◌<◌, MatchOption, option_map};
ghost use Rattle.timing.specs.Delays.{packet_delay, resting_delay};
ghost use Rattle.timing.specs.Ranges.{units_of, InRange};

use crate::quantity::{Delay, Propagation, Words};
use crate::sending::sending_time;
use crate::speed::Speed;

// A line as its carrier supplies it: what its delays are computed from.
#[derive(Clone, Copy, Debug, PartialEq, Eq)]
pub struct Circuit {
    pub speed: Speed,
    pub propagation: Propagation,
}

impl Circuit {
    // The delay of a packet, from what the box's own counter of 0.1 ms showed when it arrived and when it was sent;
    // none if it was sent before it arrived.
    pub fn packet_delay(self, arrived: u32, sent: u32, words: Words) -> Option<Delay>
        ensures value { option_map units_of result ≡ packet_delay self.speed (units_of self.propagation) arrived sent (units_of words) }
        ensures range { MatchOption result (sent < arrived) InRange }
    {
        let waiting = u64::from(sent.checked_sub(arrived)?);
        let propagation = u64::from(self.propagation.units());
        let sending = u64::from(sending_time(self.speed, words));
        Some(Delay::capped(waiting + propagation + sending))
    }

    // The delay of the line while no packet waits for it, as that of a longest packet.
    pub fn resting_delay(self) -> Delay
        ensures value { units_of result ≡ resting_delay self.speed (units_of self.propagation) }
        ensures range { InRange result }
    {
        let longest = Words { units: 64 };
        let sending = sending_time(self.speed, longest);
        Delay {
            units: self.propagation.units() + sending,
        }
    }
}
