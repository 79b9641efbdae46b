// Trees of small random maps put against all paths that there are: tests only, in a crate of their own.
//
//   maps.rt     small random maps
//   case.rt     a map under a metric, looked at from a root; places of nodes
//   paths.rt    the least cost of each node, from every path there is
//   rules.rt    distances, parents and next hops as the rules word them
//   tests.rt    the maps, for the two metrics of the node and for a foreign one

#![tactic(auto)]

#[cfg(test)]
mod case;
#[cfg(test)]
mod maps;
#[cfg(test)]
mod paths;
#[cfg(test)]
mod rules;
#[cfg(test)]
mod tests;
