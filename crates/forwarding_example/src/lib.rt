// Walks over trees that were reckoned by hand: tests only, in a crate of their own, so that they do not slow the check of `forwarding`.

#![tactic(auto)]

#[cfg(test)]
mod tests;
