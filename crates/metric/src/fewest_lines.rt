ghost use Rattle.std.specs.Prelude.{◌≡◌};
ghost use Rattle.metric.specs.Laws.{Laws};
ghost use Rattle.metric.specs.Metrics.{fewest_lines, FewestFirst};

use super::cost::Metric;

// What each line counts in a cost: one more than the largest figure, so that no figure outweighs a line.
const ONE_LINE: u64 = 65_536;

// Kind 2: fewest lines, then the smallest worst figure. The cost is lines x 65,536 + worst figure, and every number is
// read so. Only from 281,474,976,710,655 lines on would one line more pass the 64-bit range: that cost is its largest number.
#[derive(Clone, Copy, Debug, PartialEq, Eq)]
pub struct FewestLines;

impl Metric for FewestLines {
    ghost means = { λ _. fewest_lines };

    fn laws(&self)
        ensures laws { Laws fewest_lines }
        ensures measures { FewestFirst fewest_lines }
    {}

    fn empty(&self) -> u64 {
        0
    }

    fn add(&self, cost: u64, figure: u16) -> u64 {
        let lines = cost / ONE_LINE + 1;
        let worst = (cost % ONE_LINE).max(u64::from(figure));
        lines.saturating_mul(ONE_LINE).saturating_add(worst)
    }

    fn less(&self, a: u64, b: u64) -> bool {
        a < b
    }
}
