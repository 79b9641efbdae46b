// What holds over any run of calls on a node's ports, from fresh ones on, refused calls included.
// The calls and what they leave and answer are those of the crate ports (specs/Runs.antt); the laws are in specs/Laws.antt.

#![tactic(auto)]

ghost use Rattle.std.specs.Prelude.{ℕ, List};
ghost use Rattle.ports.specs.Held.{fresh};
ghost use Rattle.ports_laws.specs.Laws.{ThresholdKept, SixthReports, SumsOfPeriod};
ghost use Rattle.ports_laws.specs.Runs.{Call, holds, answers};

// However the calls come, no six closings pass without an own report, and the threshold tells how many have passed.
pub fn sixth_closing_reports()
    ensures sixth { (count root : ℕ) (calls : List Call) → SixthReports (answers (fresh count root) calls) }
    ensures threshold { (count root : ℕ) (calls : List Call) → ThresholdKept (holds (fresh count root) calls) (answers (fresh count root) calls) }
{}

// However the calls come, a slot's sum and count are those of the delays noted on it since the last closing or its raising.
pub fn sums_are_of_the_period()
    ensures { (count root : ℕ) (calls : List Call) → SumsOfPeriod (holds (fresh count root) calls) (answers (fresh count root) calls) }
{}
