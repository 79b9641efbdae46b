// The time that a line takes to send a packet.
ghost use Rattle.std.specs.Prelude.{◌≡◌, ◌≤◌};
ghost use Rattle.timing.specs.Ranges.{units_of};
ghost use Rattle.timing.specs.Sending.{Least, longest_time, sending_time};

use crate::quantity::Words;
use crate::speed::Speed;
use crate::table::times;

// The time from a packet's first bit to its last, in units of 0.1 ms.
pub fn sending_time(speed: Speed, words: Words) -> u16
    ensures value { result ≡ sending_time speed (units_of words) }
    ensures least { Least speed (units_of words) result }
    ensures range { (1 ≤ result) × (result ≤ longest_time) }
{
    times()[speed.block()][usize::from(words.units()) - 1]
}
