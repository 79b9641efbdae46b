// What is held of one node, and what a report is to it.
//
//   entry       an entry: serial, age, lines; fresh, and a period later
//   freshness   which of two reports of one origin is newer
//   verdicts    what taking a report answers, and the refusals 23 and 24 beside those of reading
//
// In specs/: Entries (with when an entry is sound), Freshness, Verdicts.

#![tactic(auto)]

pub mod entry;
pub mod freshness;
pub mod verdicts;
