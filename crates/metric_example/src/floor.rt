ghost use Rattle.std.specs.Prelude.{◌≡◌};
ghost use Rattle.metric_example.specs.Floors.{floored};

use metric::Metric;

// Another metric, to which a figure below `least` counts as `least`, so that fast lines count alike.
#[derive(Clone, Copy, Debug, PartialEq, Eq)]
pub struct Floor<M> {
    pub metric: M,
    pub least: u16,
}

impl<M: Metric> Metric for Floor<M> {
    ghost means = { λ floor. floored floor.least (M.Metric.means floor.metric) };

    fn laws(&self) {
        // Reading the floor tells the proof that it is no larger than a figure can be.
        let _least = self.least;
        self.metric.laws();
    }

    fn empty(&self) -> u64 {
        self.metric.empty()
    }

    fn add(&self, cost: u64, figure: u16) -> u64 {
        self.metric.add(cost, figure.max(self.least))
    }

    fn less(&self, a: u64, b: u64) -> bool {
        self.metric.less(a, b)
    }
}
