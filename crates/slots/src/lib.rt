// One slot of a node: unused, or up with a line, and what calls do to that line.
//
//   port.rt       Port, the line of an up slot, with what calls do to it: raising, noting, averaging, a new period
//   threshold.rt  when a report is due: the threshold and its rule
//   refusal.rt    the questions' refusals by number, for one slot and for all of them
//
// In specs/: Refusals (the numbers, and that the first no decides), Slots (what a slot holds, as plain numbers), Lines (the
// steps of a line), Thresholds (the rule that decides). The eight slots beside one another are the crate ports.

#![tactic(auto)]

pub mod port;
pub mod refusal;
pub mod threshold;
