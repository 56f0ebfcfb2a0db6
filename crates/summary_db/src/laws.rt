//! What the rule says of a database at every moment. The law is the clause of a function that does
//! nothing.

ghost use Rattle.std.specs.Prelude.{List, ℕ, Some, None};
ghost use Rattle.plan_core.specs.Graph.{IsPlan};
ghost use Rattle.summary_db.specs.Rule.{IsRuled};
ghost use Rattle.summary_db.specs.Shown.{Moment, ShowsCore};
ghost use Rattle.summary_db.specs.Told.{IsOutput};

use crate::Work;

/// A table that meets the rule shows a sound state of the core of claims and publications. Each
/// claim is that of one seat, and what a seat saw published is published still. The table of a
/// database meets the rule between any two steps.
pub fn every_moment<W: Work>()
    ensures { (rows : List (List ℕ)) (work : W) (s : Moment W W.Out)
        → IsPlan rows → IsRuled rows None (IsOutput W.defined (Some work)) s → ShowsCore rows s }
{}
