// How to bring a metric of your own: two that are taken, and one that is refused.
//
// 1. Write a struct for the metric, with its parameters as fields: a metric is a value.
// 2. Say in specs/ what it means: the empty cost, adding a figure, and less, as a `Meaning` on all numbers.
// 3. Write `impl Metric` with that meaning as its `means`. The check holds `empty`, `add` and `less` to it.
// 4. Prove the four laws, which the impl's `laws` promises: they speak of path costs of up to 64 lines alone.
//
// - src/priced.rt: `PricedDelay`, delay with a price for each line. It compares costs as numbers, so `ByNumbers` of
//   the crate `metric` says the three facts that are left to show (proofs/PricedLaws.antt)
// - src/floor.rt: `Floor`, any metric with a floor under its figures. It draws its laws from that metric's `laws`
//   (proofs/FloorLaws.antt)
// - src/worst_first.rt: smallest worst figure first, then fewest lines, which breaks the third law

#![tactic(auto)]

pub mod floor;
pub mod priced;
pub mod worst_first;

pub use floor::Floor;
pub use priced::PricedDelay;
pub use worst_first::worst_first_is_refused;
