// How long packets are delayed on a line, in units of 0.1 ms, and the average over a period.
//
//   quantity.rt  numbers with a range: Words, Propagation, Delay
//   speed.rt     the speeds, by their numbers
//   table.rt     the sending times, 512 constants, and the test over all of them
//   sending.rt   the sending time of a packet, from the table
//   circuit.rt   a line's speed and propagation; the delay of a packet on it, and of the line at rest
//   tally.rt     the delays noted in a period, and their average
//
// A call that has no answer answers None, or an error of its own: each has one reason for it, so that the caller knows which.
// The rules are in specs/, in the order of its Lib.antt; Periods has the laws over all delays of a period.

#![tactic(auto)]

pub mod circuit;
pub mod quantity;
pub mod sending;
pub mod speed;
mod table;
pub mod tally;
