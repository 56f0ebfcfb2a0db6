// What equal matters say of verdicts.

ghost use Rattle.std.specs.Prelude.{◌≡◌, ◌≤◌, ℕ, List, length};
ghost use Rattle.sum_rows.specs.declared.report.Verdict.{Verdict};
ghost use Rattle.sc_typed.specs.declared.program.Program.{Program};
ghost use Rattle.program_verdicts.specs.Verdicts.{kept_of, verdict_given};
ghost use Rattle.matter_laws.specs.Again.{MayBeUsedAgain, memory_of};

use fn_matter::matters_tell_parts;
use program_verdicts::verdicts_by_callees;
use source_laws::read_alike;

/// A function of a later program whose matter is that of one of an earlier program has the verdict of that one for all
/// verdicts of the kept callees, where the structs and the globals of the two programs are equal and names only came behind
/// those that there were. So with the verdicts of the kept callees that were used its verdict is the one that was made of
/// them.
pub fn equal_matters()
    ensures given { (earlier later : Program) (g f depth reach : ℕ) (vs : List Verdict) → MayBeUsedAgain earlier later g f
        → length vs ≤ length (kept_of earlier g)
        → verdict_given later depth reach f (kept_of later f) vs ≡ verdict_given earlier depth reach g (kept_of earlier g) vs }
    ensures kept { (earlier later : Program) (g f depth reach : ℕ) → MayBeUsedAgain earlier later g f
        → verdict_given later depth reach f (kept_of later f) (memory_of earlier depth reach g).used ≡ (memory_of earlier depth reach g).verdict }
{
    matters_tell_parts();
    read_alike();
    verdicts_by_callees();
}
