// One turn of the search: propagation, and then a decision, or the answer where all variables have
// values.

ghost use Rattle.std.specs.Prelude.{◌≡◌, true, false, length, IfOk};
ghost use Rattle.sat_base.specs.Logic.{LitsBelow, ClausesBelow};
ghost use Rattle.sat_trail.specs.Decided.{Agrees};
ghost use Rattle.sat_cdcl.specs.Answered.{IsAdvance};
ghost use Rattle.sat_cdcl.specs.Progressed.{IsProgress};

use crate::conflict::{Progress, resolve};
use crate::state::Search;
use crate::values::{meets_each, unmet};
use sat_base::{Lit, OutOfMemory};
use sat_clauses::{ClauseId, Clauses};
use sat_trail::{Choice, Trail, decide, settle};

/// What a turn of the search came to.
#[derive(Debug, Drop)]
pub enum Advance {
    /// A decision was put.
    Decided,
    /// These values satisfy all.
    Found(Vec<bool>),
    /// The steps contradict this clause; `None` where they contradict an assumption.
    Clash(Option<ClauseId>),
}

/// Whether the values of a full trail satisfy all; else what they contradict.
fn judge(trail: &Trail, clauses: &Clauses, assumed: &[Lit], values: Vec<bool>) -> Advance
    requires clauses { ClausesBelow trail.now.vars clauses.now.given }
    requires assumed { LitsBelow trail.now.vars assumed.now }
    requires values { Agrees trail.now values.items }
    ensures { IsAdvance clauses.now.given assumed.now trail.now trail.now result }
{
    if let Some(i) = unmet(values.as_slice(), clauses) {
        return Advance::Clash(ClauseId::given(i));
    }
    if !meets_each(values.as_slice(), assumed) {
        return Advance::Clash(None);
    }
    Advance::Found(values)
}

/// One turn: propagation from this place on, and then a decision or the answer.
fn take_turn(search: &mut Search, assumed: &[Lit], from: usize) -> Result<Advance, OutOfMemory>
    requires clauses { ClausesBelow search.old.trail.vars search.old.clauses.given }
    requires assumed { LitsBelow search.old.trail.vars assumed.now }
    ensures given { search.new.clauses.given ≡ search.old.clauses.given }
    ensures turn { IfOk result (λ turn. IsAdvance search.old.clauses.given assumed.now search.old.trail search.new.trail turn) }
{
    let conflict = settle(
        &mut search.trail,
        &search.clauses,
        &mut search.watches,
        from,
    )?;
    if conflict.is_some() {
        return Ok(Advance::Clash(conflict));
    }
    let choice = decide(search.alloc, &mut search.trail, &mut search.activity)?;
    match choice {
        Choice::Made => Ok(Advance::Decided),
        Choice::Full(values) => Ok(judge(&search.trail, &search.clauses, assumed, values)),
    }
}

/// One turn, and where it ends in a conflict the way back.
pub fn proceed(search: &mut Search, assumed: &[Lit], from: usize) -> Result<Progress, OutOfMemory>
    requires clauses { ClausesBelow search.old.trail.vars search.old.clauses.given }
    requires assumed { LitsBelow search.old.trail.vars assumed.now }
    ensures given { search.new.clauses.given ≡ search.old.clauses.given }
    ensures progress { IfOk result (λ progress. IsProgress search.old.clauses.given assumed.now search.old.trail search.new.trail progress) }
{
    let turn = take_turn(search, assumed, from)?;
    match turn {
        Advance::Decided => Ok(Progress::Rose),
        Advance::Found(values) => Ok(Progress::Found(values)),
        Advance::Clash(conflict) => resolve(search, conflict),
    }
}
