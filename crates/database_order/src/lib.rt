// What taking reports comes to, whatever their order.
//
//   replay   takes a list of reports, one after the other; the order theorem stands on its contract too
//
// The functions below are theorems on the rules of taking: no code runs in them. In specs/: Renewal (which entry a report renews),
// Orders (the order of reports does not matter), Examples (the premise of that can be met, and is needed).

#![tactic(auto)]

ghost use Rattle.database_order.specs.Examples.{Met, Needed};
ghost use Rattle.database_order.specs.Orders.{OrderFree};
ghost use Rattle.database_order.specs.Renewal.{Renewal};

pub mod replay;

// Nothing but the entry of a report's own origin can change, and it does exactly if the report is newer and not of the root's number.
pub fn one_entry_renewed()
    ensures { Renewal }
{}

// The same reports, taken in any two orders under the serial premise, end with the same lines in every entry.
pub fn order_does_not_matter()
    ensures { OrderFree }
{}

// The serial premise can be met.
pub fn premise_is_met()
    ensures { Met }
{}

// The serial premise is needed: without either half of it, two orders end with different lines.
pub fn premise_is_needed()
    ensures { Needed }
{}
