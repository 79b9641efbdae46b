// A map as large as a map can be, whose routes are known beforehand: tests only, in a crate of their own.

#![tactic(auto)]

#[cfg(test)]
mod tests;
