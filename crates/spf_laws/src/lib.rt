// What holds of every map and every metric that keeps the laws: theorems (specs/Theorems.antt), as promises of functions
// that do nothing.

#![tactic(auto)]

ghost use Rattle.spf_laws.specs.Theorems.{Everywhere, Reckons, OneRoute, Searches, Forwarding};

// What is reckoned are the routes.
pub fn reckoning_is_right()
    ensures { Everywhere Reckons }
{}

// There are no others.
pub fn routes_are_unique()
    ensures { Everywhere OneRoute }
{}

// Where every node shows its routes of one map under one metric, forwarding arrives.
pub fn forwarding_arrives()
    ensures { Everywhere Forwarding }
{}

// A search that settles the nearest node first finds them, whatever table of costs of paths it begins from.
pub fn searches_find_routes()
    ensures { Everywhere Searches }
{}
