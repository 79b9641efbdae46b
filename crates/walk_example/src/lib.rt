// Forwarding over every map of three nodes whose figures are 1 or 2: tests only, in a crate of their own.
//
//   maps.rt    the maps
//   walks.rt   walks cost the distance, for the two metrics of the node

#![tactic(auto)]

#[cfg(test)]
mod maps;
#[cfg(test)]
mod walks;
