// A node's own lines: eight slots, and what a node does with them between its reports.
//
//   ports.rt      Ports: the slots, the threshold, and what always holds of them; which slots are up, and to whom; start here
//   calls.rt      raising and dropping a slot, noting a delay on it
//   closing.rt    closing a period: the averages, and whether a report is due
//   reporting.rt  the lines of an own report, in rising order of neighbour
//
// A call after which an own report is due makes it: it answers the report's lines and puts the threshold back, so that nobody can
// forget to. What one slot holds, and the refusals, are the crate slots. In specs/: Places (the slots beside one another), Held
// (what the ports hold, as plain numbers), Rows (the lines of an own report), Calls, Closing. The laws over runs are the crate ports_laws.

#![tactic(auto)]

mod calls;
mod closing;
pub mod ports;
mod reporting;
