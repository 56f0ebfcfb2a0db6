// The search for a model: turns, one after the other. It ends since the trail, read as a number in
// base three, rises with each of them.

ghost use Rattle.std.specs.Prelude.{◌≡◌, [], true, false, IfOk, MatchOption};
ghost use Rattle.sat_base.specs.Logic.{LitsBelow, ClausesBelow};
ghost use Rattle.sat_cdcl.specs.Answered.{IsAssumed, IsAssumedOne, assumed_from, IsModel, HasNone, AllFollow};

use crate::conflict::Progress;
use crate::state::Search;
use crate::turn::proceed;
use sat_base::{Lit, OutOfMemory};
use sat_trail::{Put, Step, Trail, differs};

/// Whether a literal may still be true, by what became of its step.
fn assumed_from(put: Put, neg: bool) -> bool
    ensures { result ≡ assumed_from put neg }
{
    match put {
        Put::Done => true,
        Put::Taken(value) => differs(value, neg),
        Put::Absent => true,
    }
}

/// Puts an assumed literal; false where the steps make it false.
fn assume_one(trail: &mut Trail, lit: Lit) -> bool
    ensures vars { trail.new.vars ≡ trail.old.vars }
    ensures assumed { IsAssumedOne lit trail.old trail.new result }
{
    let len = trail.len();
    let step = Step {
        lit,
        implied: true,
        reason: None,
    };
    let put = trail.put(len, step);
    assumed_from(put, lit.neg)
}

/// Puts the assumed literals; false where they cannot be true together.
fn assume(trail: &mut Trail, assumed: &[Lit]) -> bool
    requires { trail.old.steps ≡ [] }
    ensures vars { trail.new.vars ≡ trail.old.vars }
    ensures assumed { IsAssumed assumed.now trail.new result }
{
    for lit in assumed {
        if !assume_one(trail, *lit) {
            return false;
        }
    }
    true
}

/// Goes on from a trail of what follows until the answer: values that satisfy all, or `None` where
/// there are none.
fn run(search: &mut Search, assumed: &[Lit]) -> Result<Option<Vec<bool>>, OutOfMemory>
    requires clauses { ClausesBelow search.old.trail.vars search.old.clauses.given }
    requires assumed { LitsBelow search.old.trail.vars assumed.now }
    requires follow { AllFollow search.old.clauses.given assumed.now search.old.trail.steps }
    ensures given { search.new.clauses.given ≡ search.old.clauses.given }
    ensures found { IfOk result (λ found. MatchOption found (HasNone search.old.clauses.given assumed.now)
        (λ values. IsModel search.old.trail.vars search.old.clauses.given assumed.now values.items)) }
{
    let mut from = 0;
    loop {
        let progress = proceed(search, assumed, from)?;
        match progress {
            Progress::Rose => {}
            Progress::Found(values) => return Ok(Some(values)),
            Progress::Exhausted => return Ok(None),
        }
        from = search.trail.len().saturating_sub(1);
    }
}

/// Values that satisfy the clauses and make the assumed literals true, or `None` where there are
/// none. The trail is empty.
pub fn find_model(search: &mut Search, assumed: &[Lit]) -> Result<Option<Vec<bool>>, OutOfMemory>
    requires empty { search.old.trail.steps ≡ [] }
    requires clauses { ClausesBelow search.old.trail.vars search.old.clauses.given }
    requires assumed { LitsBelow search.old.trail.vars assumed.now }
    ensures given { search.new.clauses.given ≡ search.old.clauses.given }
    ensures found { IfOk result (λ found. MatchOption found (HasNone search.old.clauses.given assumed.now)
        (λ values. IsModel search.old.trail.vars search.old.clauses.given assumed.now values.items)) }
{
    if !assume(&mut search.trail, assumed) {
        return Ok(None);
    }
    let found = run(search, assumed)?;
    Ok(found)
}
