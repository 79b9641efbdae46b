ghost use Rattle.std.specs.Prelude.{◌≡◌};
ghost use Rattle.metric.specs.Laws.{Laws};
ghost use Rattle.metric_example.specs.Priced.{priced, SumsWithPrice};

use metric::Metric;

// A path costs the sum of its figures and this price for each of its lines, say for the time that a box takes to switch
// a packet. A sum that would pass the 64-bit range is its largest number. With a price of 32 bits no path of up to 64
// lines comes near it; with one of 64 bits some would, and the second law would fail there.
#[derive(Clone, Copy, Debug, PartialEq, Eq)]
pub struct PricedDelay {
    pub price: u32,
}

impl Metric for PricedDelay {
    ghost means = { λ metric. priced metric.price };

    fn laws(&self)
        ensures laws { Laws (priced self.now.price) }
        ensures measures { SumsWithPrice self.now.price }
    {
        // Reading the price tells the proof that it has 32 bits.
        let _price = self.price;
    }

    fn empty(&self) -> u64 {
        0
    }

    fn add(&self, cost: u64, figure: u16) -> u64 {
        cost.saturating_add(u64::from(figure))
            .saturating_add(u64::from(self.price))
    }

    fn less(&self, a: u64, b: u64) -> bool {
        a < b
    }
}
