// The bytes of a report: what they mean, and how they are read. Nothing is copied and nothing is allocated.
//
// fault.rt    the questions that reading asks, their numbers, and a no at its place
// field.rt    one field: tag, length, value; the field reader
// lines.rt    the lines that pairs of bytes hold, one by one
// report.rt   the whole report; the report reader, which asks the field reader
//
// What a reader has to believe stands in specs/: Faults (the first no decides), Lines, Fields and Reports (what bytes say,
// and the questions in their order), Form (the one form of a report as bytes), Laws (bytes that read, and the form of what
// they say, are the same thing). Writing is the crate wire_write.

#![tactic(auto)]

pub mod fault;
pub mod field;
pub mod lines;
pub mod report;
