ghost use Rattle.std.specs.Prelude.{◌≡◌};
ghost use Rattle.metric.specs.Laws.{Laws};
ghost use Rattle.metric.specs.Metrics.{delay, Sums};

use super::cost::Metric;

// Kind 1: a path costs the sum of its figures. A sum that would pass the 64-bit range is its largest number.
#[derive(Clone, Copy, Debug, PartialEq, Eq)]
pub struct Delay;

impl Metric for Delay {
    ghost means = { λ _. delay };

    fn laws(&self)
        ensures laws { Laws delay }
        ensures measures { Sums delay }
    {}

    fn empty(&self) -> u64 {
        0
    }

    fn add(&self, cost: u64, figure: u16) -> u64 {
        cost.saturating_add(u64::from(figure))
    }

    fn less(&self, a: u64, b: u64) -> bool {
        a < b
    }
}
