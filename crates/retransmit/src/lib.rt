// Which reports have to be sent again, on which line.
//
//   timers      the timers: one for each slot and origin, each 0 to 3 by its type
//   setting     what sets them: a flood, a duplicate heard, a slot dropped
//   resending   a resending on a slot, and its refusals 21 and 28
//
// In specs/: Timers, Resending (with the law: just those origins are listed whose timer ran out while their report was in force).
// The timers know nothing of lines: whoever keeps the slots hands in the set of those that a report is sent on.

#![tactic(auto)]

pub mod resending;
mod setting;
pub mod timers;

pub use timers::Timers;
