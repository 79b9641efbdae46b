// Taking many reports.
ghost use Rattle.std.specs.Prelude.{◌≡◌, ℕ, List};
ghost use Rattle.std.specs.List.Sorted.{IsPermutation};
ghost use Rattle.database.specs.States.{state};
ghost use Rattle.database_order.specs.Orders.{taken_all, lines_held, Premise, bytes_of};

use database::Database;

// Takes the reports one after the other; a refused one changes nothing. Under the serial premise any other order would have ended
// with the same lines in every entry.
pub fn take_each(database: &mut Database, reports: &[&[u8]])
    ensures left { state database.new ≡ taken_all (state database.old) (bytes_of reports.now) }
    ensures any_order { (ys : List (List ℕ)) → IsPermutation (bytes_of reports.now) ys → Premise (state database.old) (bytes_of reports.now) → lines_held (state database.new) ≡ lines_held (taken_all (state database.old) ys) }
{
    for report in reports {
        let _ = database.take(report);
    }
}
