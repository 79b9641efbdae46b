// Writing reports from the database into the caller's buffer.
//
// specs/Writing says what a writing answers and leaves in the buffer; the form of a report as bytes is wire's.

#![tactic(auto)]

pub mod entry;
