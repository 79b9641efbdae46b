ghost use Rattle.std.specs.Prelude.{◌≡◌};
ghost use Rattle.metric.specs.Laws.{Laws};
ghost use Rattle.metric.specs.Meaning.{Meaning};

// What a path costs. The methods equal the meaning for all numbers. What a metric means off path costs is its own
// affair: no law speaks of it.
pub trait Metric {
    // The empty cost, adding a figure, and the order.
    ghost means: { Self → Meaning };

    // Promises the four laws, and does nothing. Code whose proof needs them calls it; a metric that is built of others
    // calls theirs, and draws its own from what they promise.
    fn laws(&self)
        ensures { Laws (means self.now) };

    // No body is provided below, though three impls agree in two: it would have to be right whatever the metric means, and not every
    // metric compares costs as numbers. An impl for all that do would overlap the one for `Floor`.

    // The cost of the path that has no line.
    fn empty(&self) -> u64
        ensures { result ≡ (means self.now).empty };

    // The cost of a path with one line more, which carries this figure. No line carries 0, and that is answered too.
    fn add(&self, cost: u64, figure: u16) -> u64
        ensures { result ≡ (means self.now).add cost figure };

    // Whether the cost `a` is less than the cost `b`.
    fn less(&self, a: u64, b: u64) -> bool
        ensures { result ≡ (means self.now).less a b };
}
