// What is noted of a line in one period, and its average.
ghost use Rattle.std.specs.Prelude.{◌*◌, ◌≤◌};
ghost use Rattle.timing.specs.Limits.{largest};

use crate::quantity::Delay;

// What was noted of a line in one period: the sum of the packets' delays, and how many they are, at most 65,535.
#[derive(Clone, Copy, Debug, PartialEq, Eq)]
pub struct Tally {
    sum: u32,
    count: u16,
    ghost least: { count ≤ sum },
    ghost most: { sum ≤ largest * count },
}

impl Tally {
    ghost use Rattle.std.specs.Prelude.{◌≡◌, ℕ, List, [], option_map};
    ghost use Rattle.timing.specs.Periods.{Tallies, NotedAfter, Averages};
    ghost use Rattle.timing.specs.Ranges.{units_of, InRange};
    ghost use Rattle.timing.specs.Tallies.{totals, nothing, noting, average_of};

    // Nothing noted yet.
    pub fn new() -> Tally
        ensures value { totals result ≡ nothing }
        ensures law { Tallies [] result }
    {
        Tally { sum: 0, count: 0 }
    }

    // The tally with one more delay; none if the count is full.
    pub fn noted(self, delay: Delay) -> Option<Tally>
        ensures value { option_map totals result ≡ noting (totals self) (units_of delay) }
        ensures law { (delays : List ℕ) → Tallies delays self → NotedAfter delays (units_of delay) result }
    {
        let count = self.count.checked_add(1)?;
        let sum = self.sum + u32::from(delay.units());
        Some(Tally { sum, count })
    }

    // The average of the period: of its delays, or the resting delay of the line if none was noted.
    pub fn average(self, resting: Delay) -> Delay
        ensures value { units_of result ≡ average_of (totals self) (units_of resting) }
        ensures law { (delays : List ℕ) → Tallies delays self → Averages delays (units_of resting) (units_of result) }
        ensures range { InRange result }
    {
        if self.count == 0 {
            return resting;
        }
        Delay {
            units: (self.sum / u32::from(self.count)) as u16,
        }
    }
}
