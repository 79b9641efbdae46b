// Quantities with a range. The range is part of the type, so that no function has to ask for it.
ghost use Rattle.std.specs.Prelude.{◌≡◌, ◌≤◌};

use std::error::Error;
use std::fmt;

// A number from LEAST to MOST.
#[derive(Clone, Copy, Debug, PartialEq, Eq)]
pub struct Quantity<const LEAST: u16, const MOST: u16> {
    pub(crate) units: u16,
    pub ghost least: { LEAST ≤ units },
    pub ghost most: { units ≤ MOST },
}

// The length of a packet in words of 16 bits.
pub type Words = Quantity<1, 64>;

// How long a signal is under way on a line, in units of 0.1 ms.
pub type Propagation = Quantity<0, 20_000>;

// A delay in units of 0.1 ms: of a packet, of a line at rest, or a period's average.
pub type Delay = Quantity<1, 65_535>;

// A number that lies beyond the range of the quantity that was asked for.
#[derive(Clone, Copy, Debug, PartialEq, Eq)]
pub struct OutOfRange(pub u16);

impl<const LEAST: u16, const MOST: u16> TryFrom<u16> for Quantity<LEAST, MOST> {
    ghost use Rattle.std.specs.Prelude.{ok_or};
    ghost use Rattle.timing.specs.Ranges.{ok_units, within};

    type Error = OutOfRange;

    ghost try_from_gives = { λ n r. ok_units r ≡ ok_or (within LEAST MOST n) (record { 0 = n }) };

    fn try_from(units: u16) -> Result<Self, OutOfRange> {
        // An `if`, since a closure for `then` would not know the range.
        if (LEAST..=MOST).contains(&units) {
            Ok(Quantity { units })
        } else {
            Err(OutOfRange(units))
        }
    }
}

impl fmt::Display for OutOfRange {
    ghost use Rattle.std.specs.Prelude.{◌++◌, Some, codes, decimal};

    ghost output = { λ e. Some (decimal e.0 ++ codes " lies beyond the range") };

    fn fmt<W: fmt::Write>(&self, f: &mut fmt::Formatter<W>) -> fmt::Result {
        write!(f, "{} lies beyond the range", self.0)
    }
}

impl Error for OutOfRange {}

impl<const LEAST: u16, const MOST: u16> Quantity<LEAST, MOST> {
    ghost use Rattle.timing.specs.Ranges.{units_of};

    pub fn units(self) -> u16
        ensures value { result ≡ units_of self.entry }
        ensures range { (LEAST ≤ result) × (result ≤ MOST) }
    {
        self.units
    }
}

impl Delay {
    ghost use Rattle.timing.specs.Delays.{capped};
    ghost use Rattle.timing.specs.Ranges.{units_of};

    // A time as a delay: above the largest it counts as the largest.
    pub(crate) fn capped(time: u64) -> Delay
        requires { 1 ≤ time }
        ensures { units_of result ≡ capped time }
    {
        Delay {
            units: u16::try_from(time).unwrap_or(u16::MAX),
        }
    }
}
