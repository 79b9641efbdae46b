// Metrics: what a path costs. The console calls a metric a kind.
//
// A path costs one 64-bit number. A metric says what no line costs, what one line more costs, and which of two costs is the
// lesser. It has an answer to everything, and gives the same one each time.
//
// - src/cost.rt: the trait `Metric`
// - src/delay.rt: `Delay`, the sum of the figures
// - src/fewest_lines.rt: `FewestLines`, fewest lines, then the smallest worst figure
// - specs/Meaning.antt: what a metric means, and which numbers are path costs
// - specs/Laws.antt: the four laws that each metric promises by its function `laws`
// - specs/Metrics.antt: the two metrics as definitions, and what they measure of a whole path
// - proofs/NumberOrder.antt: what is left to show of a metric that compares costs as numbers
//
// A metric of your own stands in a crate of its own, as the crate `metric_example` shows.

#![tactic(auto)]

pub mod cost;
pub mod delay;
pub mod fewest_lines;

pub use cost::Metric;
pub use delay::Delay;
pub use fewest_lines::FewestLines;
