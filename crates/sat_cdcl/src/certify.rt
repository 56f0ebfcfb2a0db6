// The end of a certificate. Where no decision stands, the clause of the last conflict is resolved with
// the clauses that implied its literals, until only negations of assumed literals are left. So the empty
// clause follows by unit propagation once there is a clause for each assumed literal.

ghost use Rattle.std.specs.Prelude.{◌≡◌, ◌++◌, true, IfOk, IsTrue};
ghost use Rattle.std.specs.List.{Contains};
ghost use Rattle.sat_base.specs.declared.literal.Lit.{Lit};
ghost use Rattle.sat_base.specs.Logic.{negation};
ghost use Rattle.sat_base.specs.Certificates.{IsCertificate};
ghost use Rattle.sat_clauses.specs.Certified.{units, IsRefuted};
ghost use Rattle.sat_cdcl.specs.Certified.{AreAssumedFalse, IsOpposed};

use crate::analyse::unwind;
use crate::state::Search;
use sat_base::{Lit, Log, OutOfMemory};

/// Whether this literal is assumed.
fn is_assumed(lit: Lit, assumed: &[Lit]) -> bool
    ensures { IsTrue result → Contains assumed.now lit }
{
    assumed.iter().any(|other| *other == lit)
}

/// Whether the negation of each of these literals is assumed.
fn are_assumed_false(lits: &[Lit], assumed: &[Lit]) -> bool
    ensures { IsTrue result → AreAssumedFalse lits.now assumed.now }
{
    lits.iter().all(|lit| is_assumed(lit.negated(), assumed))
}

/// Whether a literal and its negation are both assumed.
fn are_opposed(assumed: &[Lit]) -> bool
    ensures { IsTrue result → IsOpposed assumed.now }
{
    assumed.iter().any(|lit| is_assumed(lit.negated(), assumed))
}

/// Whether the last conflict, of a trail without a decision, refutes the clauses and the assumed
/// literals by unit propagation.
fn is_refuted(search: &mut Search, assumed: &[Lit]) -> Result<bool, OutOfMemory>
    ensures same { search.new.clauses ≡ search.old.clauses }
    ensures refuted { IfOk result (λ done. done ≡ true → IsRefuted search.old.clauses assumed.now) }
{
    if are_opposed(assumed) {
        return Ok(true);
    }
    let conflict = match search.conflict {
        None => return Ok(false),
        Some(conflict) => conflict,
    };
    let done = unwind(
        &search.trail,
        &search.clauses,
        &mut search.activity,
        &mut search.resolvent,
        conflict,
        0,
        0,
    )?;
    Ok(done && are_assumed_false(search.resolvent.lits(), assumed))
}

/// The whole certificate, after a search that ended without a model.
pub fn conclude(search: &mut Search, assumed: &[Lit]) -> Result<Log, OutOfMemory>
    ensures given { search.new.clauses.given ≡ search.old.clauses.given }
    ensures certificate { IfOk result (λ log. IsCertificate (search.old.clauses.given ++ units assumed.now) log) }
{
    if !is_refuted(search, assumed)? {
        return Err(OutOfMemory);
    }
    search.clauses.finish_log(assumed)
}
