// The line of a slot that is up, and what calls do to it.
ghost use Rattle.std.specs.Prelude.{◌≡◌, Some, option_map};
ghost use Rattle.timing.specs.Ranges.{units_of};
ghost use Rattle.slots.specs.Lines.{supply_of, supplied, raised_line, delayed, noted, average, begun_line};
ghost use Rattle.slots.specs.Refusals.{on_ok};
ghost use Rattle.slots.specs.Slots.{line_of, figure_for};
ghost use Rattle.slots.specs.Thresholds.{threshold_of, moved};

use crate::refusal::Refusal;
use crate::threshold::Threshold;
use timing::circuit::Circuit;
use timing::quantity::{Delay, Propagation, Words};
use timing::speed::Speed;
use timing::tally::Tally;

// The line of a slot that is up.
#[derive(Clone, Copy, Debug, PartialEq, Eq)]
pub struct Port {
    // The node at the line's other end.
    neighbour: u8,
    circuit: Circuit,
    // What was noted in this period.
    tally: Tally,
    // The figure that was last reported.
    reported: Delay,
}

// A slot for one of a node's own lines: unused, or up with a line.
pub type Slot = Option<Port>;

// The circuit of a speed's number and a propagation: speed in 1 to 8? propagation at most 20,000?
pub fn circuit(speed: u8, propagation: u16) -> Result<Circuit, Refusal>
    ensures { on_ok supply_of result ≡ supplied speed propagation }
{
    let speed = Speed::try_from(speed).map_err(|_| Refusal::SpeedUnknown)?;
    let propagation = Propagation::try_from(propagation).map_err(|_| Refusal::PropagationTooLong)?;
    Ok(Circuit { speed, propagation })
}

impl Port {
    // The line of a slot that is raised.
    pub fn raised(neighbour: u8, circuit: Circuit) -> Port
        ensures { line_of result ≡ raised_line neighbour (supply_of circuit) }
    {
        Port {
            neighbour,
            circuit,
            tally: Tally::new(),
            reported: circuit.resting_delay(),
        }
    }

    // The node at the line's other end.
    pub fn neighbour(self) -> u8
        ensures { result ≡ (line_of self).neighbour }
    {
        self.neighbour
    }

    // The reported figure, if the line goes to that node.
    pub fn figure_for(self, node: u8) -> Option<Delay>
        ensures { option_map units_of result ≡ figure_for node (Some (line_of self)) }
    {
        (self.neighbour == node).then_some(self.reported)
    }

    // The delay of a packet on this line: words in 1 to 64? sent not before arrived?
    pub fn delay(self, arrived: u32, sent: u32, words: u8) -> Result<Delay, Refusal>
        ensures { on_ok units_of result ≡ delayed (line_of self) arrived sent words }
    {
        let words = Words::try_from(u16::from(words)).map_err(|_| Refusal::WordsOutOfRange)?;
        self.circuit
            .packet_delay(arrived, sent, words)
            .ok_or(Refusal::SentBeforeArrival)
    }

    // The line with a delay noted on it: count below 65,535?
    pub fn noted(self, delay: Delay) -> Result<Port, Refusal>
        ensures { on_ok line_of result ≡ noted (line_of self) (units_of delay) }
    {
        let tally = self.tally.noted(delay).ok_or(Refusal::CountFull)?;
        Ok(Port { tally, ..self })
    }

    // The average of the period.
    pub fn average(self) -> Delay
        ensures { units_of result ≡ average (line_of self) }
    {
        self.tally.average(self.circuit.resting_delay())
    }

    // Whether the average has moved away from the reported figure.
    pub fn moved(self, threshold: Threshold) -> bool
        ensures { result ≡ moved (threshold_of threshold) (Some (line_of self)) }
    {
        threshold.reached(self.reported, self.average())
    }

    // The line as a new period begins, with the average as reported figure if the old one brought a report.
    pub fn begun(self, report: bool) -> Port
        ensures { line_of result ≡ begun_line report (line_of self) }
    {
        let tally = Tally::new();
        let reported = if report {
            self.average()
        } else {
            self.reported
        };
        Port {
            tally,
            reported,
            ..self
        }
    }
}
