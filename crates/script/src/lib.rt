// The text layer of a script: how a line falls into words, and how words stand for numbers and for bytes.
//
// Lines and words are bytes, and may hold any byte: no UTF-8 is asked for. Every function takes every input.
//
// line.rt      Words, an iterator over the words of a line
// decimal.rt   number: a word of digits as a number, kept at most what the caller can hold
// hex.rt       decode_hex and encode_hex: a word of hexadecimal digits as bytes, and back
//
// The rules stand in specs/: Words.antt (with the laws that fix the words of every line), Stepping.antt (what one
// call of `next` does), Numbers.antt and Hexadecimal.antt (with the laws that tie reading to writing).

#![tactic(auto)]

pub mod decimal;
pub mod hex;
pub mod line;

pub use decimal::number;
pub use hex::{decode_hex, encode_hex};
pub use line::Words;
