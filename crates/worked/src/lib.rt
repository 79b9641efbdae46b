// What was reckoned by hand, computed from the definitions: one table (specs/Table.antt) under one statement.

#![tactic(auto)]

ghost use Rattle.worked.specs.Agreement.{Agree};
ghost use Rattle.worked.specs.Table.{table};

// Every row of the table comes out as it was reckoned.
pub fn reckoned_by_hand()
    ensures { Agree table }
{}
