// The verdict of a function by its gates, or by trying every choice.

ghost use Rattle.std.specs.Prelude.{◌≡◌, [], IfOk, IfSome};
ghost use Rattle.fsm_spec.specs.Table.{IsWhole};
ghost use Rattle.sc_gather.specs.Seen as seen;
ghost use Rattle.sc_world.specs.Verdict as spec;
ghost use Rattle.layout_base.specs.Seen as laid;
ghost use Rattle.run_laws.specs.Proper.{IsClosed};
ghost use Rattle.location_texts.specs.Seen as named;
ghost use Rattle.fn_by_gates.specs.Gates.{AreGatesOf};

use crate::gates::Gates;
use fn_answers::{Solving, first_lanes};
use fn_gated::Gated;
use fn_trying::{Runs, Trying};
use fn_verdict::verdict;
use layout_base::Ground;
use location_texts::Texts;
use sat_base::Solver;
use sc_base::OutOfMemory;
use std::alloc::Global;
use sum_rows::Verdict;

// The verdict by gates.
#[tactic(auto, unfolding(layout_base::specs::Seen::ground_of))]
fn solved<'p, 'm, 'f, G: Gated + Drop, S: Solver + Drop>(
    alloc: Global,
    given: Ground<'p, 'm, 'f>,
    texts: Texts<'p, 'f>,
    gates: Gates<G, S>,
) -> Result<Verdict, OutOfMemory>
    requires whole { IsWhole (laid.ground_of given).source.machine }
    requires closed { IsClosed (laid.layout_of texts.places.now) }
    requires gates { AreGatesOf (laid.ground_of given).source (named.texts texts) (G.source gates.questions) (G.texts gates.questions)
        (G.ready gates.questions) gates.net }
    requires clauses { S.clauses gates.solver ≡ [] }
    ensures { IfOk result (λ v. v ≡ spec.done_with (laid.ground_of given.entry).source (named.texts texts.entry)
        (spec.answers (laid.ground_of given.entry).source (named.texts texts.entry))) }
{
    let runs = Runs::new(alloc, given, texts)?;
    let lanes = first_lanes(alloc, texts.places)?;
    let mut asks = Solving::new(alloc, runs, gates.questions, gates.net, gates.solver, lanes);
    verdict(alloc, given.here, &texts, &mut asks)
}

// The verdict by trying every choice.
#[tactic(auto, unfolding(layout_base::specs::Seen::ground_of))]
fn tried<'p, 'm, 'f>(
    alloc: Global,
    given: Ground<'p, 'm, 'f>,
    texts: Texts<'p, 'f>,
) -> Result<Verdict, OutOfMemory>
    requires whole { IsWhole (laid.ground_of given).source.machine }
    requires closed { IsClosed (laid.layout_of texts.places.now) }
    ensures { IfOk result (λ v. v ≡ spec.done_with (laid.ground_of given.entry).source (named.texts texts.entry)
        (spec.answers (laid.ground_of given.entry).source (named.texts texts.entry))) }
{
    let mut asks = Trying::new(alloc, given, texts)?;
    verdict(alloc, given.here, &texts, &mut asks)
}

/// The verdict of the function at hand, which has a body: by its gates, or by trying every choice where it has none. `given` has what is
/// read of the program, and `texts` the layout, which is one that `places` gives. The machine of states is one that a file spells, or that
/// of locks.
pub fn judge<'p, 'm, 'f, G: Gated + Drop, S: Solver + Drop>(
    alloc: Global,
    given: Ground<'p, 'm, 'f>,
    texts: Texts<'p, 'f>,
    gates: Option<Gates<G, S>>,
) -> Result<Verdict, OutOfMemory>
    requires whole { IsWhole (laid.ground_of given).source.machine }
    requires closed { IsClosed (laid.layout_of texts.places.now) }
    requires gates { IfSome gates (λ g. AreGatesOf (laid.ground_of given).source (named.texts texts) (G.source g.questions) (G.texts g.questions)
        (G.ready g.questions) g.net) }
    requires clauses { IfSome gates (λ g. S.clauses g.solver ≡ []) }
    ensures { IfOk result (λ v. v ≡ spec.done_with (laid.ground_of given.entry).source (named.texts texts.entry)
        (spec.answers (laid.ground_of given.entry).source (named.texts texts.entry))) }
{
    match gates {
        Some(gates) => solved(alloc, given, texts, gates),
        None => tried(alloc, given, texts),
    }
}
