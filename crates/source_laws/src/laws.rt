// Functions that are read alike.

ghost use Rattle.std.specs.Prelude.{◌≡◌, ◌≤◌, ℕ, List, length};
ghost use Rattle.sc_base.specs.declared.pos.NameId.{NameId};
ghost use Rattle.sum_rows.specs.declared.report.Verdict.{Verdict};
ghost use Rattle.sc_typed.specs.declared.program.Program.{Program};
ghost use Rattle.sc_world.specs.Source.{Source};
ghost use Rattle.sc_world.specs.Verdict.{verdict_of};
ghost use Rattle.program_verdicts.specs.Verdicts.{kept_of, verdict_given};
ghost use Rattle.source_laws.specs.Named.{IsFront, IsReadAlike, ReadsBelow, SignaturesAgree, Tables, texts_with, with_tables};

use layout_laws::locations_are_right;

/// Names that come behind those that a function reads, and signatures of functions that it does not keep as callees, change
/// nothing in it: its verdict is the same. And a function that is read as one of an earlier program is, has the verdict of
/// that one, whatever the verdicts of the kept callees are.
pub fn read_alike()
    ensures tables { (old new : Tables) (s : Source) (params globals locals : List NameId) → IsFront old.names new.names → SignaturesAgree old new s
        → ReadsBelow (length old.names) s params globals locals
        → verdict_of (with_tables s old) (texts_with params globals locals old.names) ≡ verdict_of (with_tables s new) (texts_with params globals locals new.names) }
    ensures verdicts { (earlier later : Program) (g f depth reach : ℕ) (vs : List Verdict) → IsReadAlike earlier later g f
        → length vs ≤ length (kept_of earlier g)
        → verdict_given later depth reach f (kept_of later f) vs ≡ verdict_given earlier depth reach g (kept_of earlier g) vs }
{
    locations_are_right();
}
