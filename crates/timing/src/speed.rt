// The speeds of lines.
ghost use Rattle.std.specs.Prelude.{◌≡◌, ◌-◌, ◌++◌, Some, codes, decimal, ok_or};
ghost use Rattle.timing.specs.Speeds.{numbered, number_of};

use std::error::Error;
use std::fmt;

// How many bits a line sends in a second. The speeds are numbered 1 to 8, in this order.
#[derive(Clone, Copy, Debug, PartialEq, Eq)]
pub enum Speed {
    Bits2400,
    Bits4800,
    Bits9600,
    Bits19200,
    Bits50000,
    Bits56000,
    Bits64000,
    Bits230400,
}

// A number that no speed has.
#[derive(Clone, Copy, Debug, PartialEq, Eq)]
pub struct UnknownSpeed(pub u8);

// The speed that has a number.
impl TryFrom<u8> for Speed {
    type Error = UnknownSpeed;

    ghost try_from_gives = { λ number r. r ≡ ok_or (numbered number) (record { 0 = number }) };

    fn try_from(number: u8) -> Result<Speed, UnknownSpeed> {
        match number {
            1 => Ok(Speed::Bits2400),
            2 => Ok(Speed::Bits4800),
            3 => Ok(Speed::Bits9600),
            4 => Ok(Speed::Bits19200),
            5 => Ok(Speed::Bits50000),
            6 => Ok(Speed::Bits56000),
            7 => Ok(Speed::Bits64000),
            8 => Ok(Speed::Bits230400),
            _ => Err(UnknownSpeed(number)),
        }
    }
}

impl fmt::Display for UnknownSpeed {
    ghost output = { λ e. Some (codes "no speed has the number " ++ decimal e.0) };

    fn fmt<W: fmt::Write>(&self, f: &mut fmt::Formatter<W>) -> fmt::Result {
        write!(f, "no speed has the number {}", self.0)
    }
}

impl Error for UnknownSpeed {}

impl Speed {
    // The place of this speed's block in the table of sending times, from 0.
    pub(crate) fn block(self) -> usize
        ensures { result ≡ number_of self - 1 }
    {
        self as usize
    }
}
