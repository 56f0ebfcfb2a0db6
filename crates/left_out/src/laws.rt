// What a verdict is worth that leaves nothing out. A law is the clause of a function that does nothing but cite others.

ghost use Rattle.std.specs.Prelude.{◌≡◌, List, true};
ghost use Rattle.sum_rows.specs.declared.report.Report.{Report};
ghost use Rattle.sum_rows.specs.declared.report.Verdict.TheVariants.{Done};
ghost use Rattle.sum_rows.specs.declared.row.Row.{Row as OneRow};
ghost use Rattle.sum_rows.specs.declared.row.Summary.{Summary};
ghost use Rattle.fsm_spec.specs.Table.{IsWhole};
ghost use Rattle.run_laws.specs.Proper.{IsClosed};
ghost use Rattle.sc_world.specs.Paths.{Texts};
ghost use Rattle.sc_world.specs.Shows.{Over, says};
ghost use Rattle.sc_world.specs.Source.{Source};
ghost use Rattle.sc_world.specs.Verdict.{answers, done_with};
ghost use Rattle.left_out.specs.LeftOut.{has_row_of, row_query};
ghost use Rattle.left_out.specs.Nothing.{HasAllOfRuns, HaveOwnPaths, LeavesNothing};
ghost use Rattle.left_out.specs.declared.misses.Subject.{Subject as Of};

use run_laws::rows_of_locations_are_those_of_runs;
use world_laws::{each_error_has_its_report, rows_are_those_of_runs};

/// A run has a row of a subject exactly where it has some row of it, and it has one at most.
pub fn runs_have_one_row()
    ensures some { (x : Texts) (o : Over) (t : Of) (r : OneRow) → says x o (row_query t r) ≡ true → has_row_of o t ≡ true }
    ensures one { (x : Texts) (o : Over) (t : Of) (r q : OneRow) → says x o (row_query t r) ≡ true → says x o (row_query t q) ≡ true → r ≡ q }
    ensures has { (x : Texts) (o : Over) (t : Of) → has_row_of o t ≡ true → (r : OneRow) × (says x o (row_query t r) ≡ true) }
{}

/// Where no choice leaves anything out of a verdict, it lists each item, each row and each written cell of the runs, and reports the text of each
/// error at an inner location and the place of each lost object.
pub fn nothing_left_out()
    ensures { (s : Source) (x : Texts) (m : Summary) (rs : List Report) → LeavesNothing s x (Done m rs) → HasAllOfRuns s x m rs }
{}

/// The defined verdict leaves nothing out, where no two locations that callers know have one path: a verdict knows paths alone. Asked is also
/// that the layout is one that `places` gives, and the machine of states one that a file spells, or that of locks.
pub fn verdicts_leave_nothing_out()
    ensures { (s : Source) (x : Texts) → IsWhole s.machine → IsClosed x.layout → HaveOwnPaths x.layout
        → LeavesNothing s x (done_with s x (answers s x)) }
{
    rows_are_those_of_runs();
    rows_of_locations_are_those_of_runs();
    each_error_has_its_report();
}
