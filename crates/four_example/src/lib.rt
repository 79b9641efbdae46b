// The network of four, as it was reckoned by hand: tests only, in a crate of their own.

#![tactic(auto)]

#[cfg(test)]
mod tests;
