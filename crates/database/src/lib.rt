// The database of one node: what is known of every node of the network.
//
//   types         the database: an entry for each node, every one sound by its type
//   making        a fresh database, and the refusals 1 and 2
//   lookup        what is read from it
//   ageing        a period passes
//   taking        taking a report
//   originating   the root's own reports
//
// In specs/: States (the whole database), Taking, Originating. What one entry is, and which report is newer, is the crate
// entries; that the order of reports does not matter, database_order.

#![tactic(auto)]

mod ageing;
mod lookup;
pub mod making;
mod originating;
mod taking;
pub mod types;

pub use types::Database;
