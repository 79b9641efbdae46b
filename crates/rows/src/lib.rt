// The lines that leave one node, as a node keeps them: at most 8, without allocation.
//
//   row.rt      the row: made without a line, a line put behind the others, its lines
//   allowed.rt  whether a row may be the row of a node
//   places.rt   where what is numbered from 1 stands

#![tactic(auto)]

pub mod allowed;
pub mod places;
pub mod row;

pub use row::{Row, RowFull};
