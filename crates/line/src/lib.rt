// Line records: whether a line to a neighbour may carry data, judged by the test messages on it.
// A record is of one line, exists once, and only the events move it: a test message heard or missed, and the other end's
// word that it is not Down. Its states are types, so what asks for a record in Up takes no other.
//   messages   a test message: heard or missed
//   states     Down, Ready, Up, and Record for one of the three: start here, the states are drawn there; which line a record
//              in Up is of
//   making     a new record, and the two refusals 51 and 52
//   window     the last 20 messages as a mask, and when a line fails
//   events     what one event does in each state
//   courses    what many messages do: the law of the states stands on its functions
// In specs/: Messages (lists of messages), Windows (the mask), Moves (states and events), Making, Courses (the law).

#![tactic(auto)]

pub mod courses;
pub mod events;
pub mod making;
pub mod messages;
pub mod states;
mod window;
