// When a report is due: the threshold and its rule.
ghost use Rattle.std.specs.Prelude.{◌≡◌, ◌%◌, ◌≤◌};

use timing::quantity::Delay;

// How far an average has to be from its reported figure for a report to be due: 640 units at first, 128 less after each
// period that brought no report, down to 0.
#[derive(Clone, Copy, Debug, PartialEq, Eq)]
pub struct Threshold {
    units: u16,
    ghost most: { units ≤ 640 },
    ghost steps: { units % 128 ≡ 0 },
}

impl Threshold {
    ghost use Rattle.std.specs.Prelude.{◌==◌};
    ghost use Rattle.timing.specs.Ranges.{units_of};
    ghost use Rattle.slots.specs.Thresholds.{threshold_of, first, after_period, reached};

    const FIRST: u16 = 640;

    const FALL: u16 = 128;

    // At first, and after each own report.
    pub fn new() -> Threshold
        ensures { threshold_of result ≡ first }
    {
        Threshold { units: Self::FIRST }
    }

    // After a period: back to the first if it brought a report, else one step lower.
    pub fn after_period(self, reported: bool) -> Threshold
        ensures { threshold_of result ≡ after_period reported (threshold_of self) }
    {
        if reported {
            return Threshold::new();
        }
        Threshold {
            units: self.units.saturating_sub(Self::FALL),
        }
    }

    // Whether the threshold has fallen to 0.
    pub fn is_zero(self) -> bool
        ensures { result ≡ (threshold_of self == 0) }
    {
        self.units == 0
    }

    // The rule: whether an average is far enough from the reported figure.
    pub(crate) fn reached(self, reported: Delay, average: Delay) -> bool
        ensures { result ≡ reached (threshold_of self) (units_of reported) (units_of average) }
    {
        average.units().abs_diff(reported.units()) >= self.units
    }
}
