//! The check of a certificate, step by step.

ghost use Rattle.std.specs.Prelude.{◌≡◌, ◌++◌, ◌∷◌, [], IfOk, OnOk};
ghost use Rattle.sat_base.specs.Logic.{LitsBelow, ClausesBelow};
ghost use Rattle.rup_check.specs.Stored.{present, StoredBelow};
ghost use Rattle.rup_check.specs.Checked.{step_lits, StepsBelow, adds_empty, ends_empty, IsChecked};
ghost use Rattle.rup_check.specs.Stepping.{IsAdded, IsDropped, IsTaken, end_of};

use crate::find::find;
use crate::index::hash_of;
use crate::look::{OpenLits, open_lits};
use crate::marks::Marks;
use crate::rup::is_rup;
use crate::store::Store;
use crate::watch::Hints;
use sat_base::{Clause, ClauseList, Lit, OutOfMemory, Step};
use std::alloc::Global;

/// What the check of a certificate found.
#[derive(Clone, Copy, Debug, PartialEq, Eq)]
pub enum Checked {
    /// The steps are a certificate.
    Yes,
    /// The step of this number, counted from 0, is the first that is not allowed; or all steps are
    /// allowed, the last does not add the empty clause, and this is their number.
    No(usize),
}

/// Two different literals of a clause, if it has these, where no literal is marked.
fn two_lits(marks: &Marks, clause: &[Lit]) -> Option<(Lit, Lit)>
    requires { LitsBelow marks.now.vars clause.now }
{
    match open_lits(clause, marks) {
        OpenLits::Two(one, other) => Some((one, other)),
        OpenLits::One(_) => None,
        OpenLits::Nothing => None,
    }
}

/// Adds a clause, and notes where it is to be found.
fn add_clause(
    store: &mut Store,
    marks: &mut Marks,
    hints: &mut Hints,
    clause: &[Lit],
) -> Result<(), OutOfMemory>
    requires stored { StoredBelow marks.old.vars store.old }
    requires clause { LitsBelow marks.old.vars clause.now }
    ensures vars { marks.new.vars ≡ marks.old.vars }
    ensures stored { OnOk result (StoredBelow marks.old.vars store.new) }
    ensures added { OnOk result (present store.new ≡ present store.old ++ clause.now ∷ []) }
{
    marks.set_to(clause)?;
    let hash = hash_of(marks.lits());
    marks.clear();
    let watched = two_lits(marks, clause);
    let id = store.add(clause)?;
    hints.note(id, hash, watched)?;
    Ok(())
}

/// Adds a clause if it is RUP.
fn add_step(
    store: &mut Store,
    marks: &mut Marks,
    hints: &mut Hints,
    clause: &[Lit],
) -> Result<bool, OutOfMemory>
    requires stored { StoredBelow marks.old.vars store.old }
    requires clause { LitsBelow marks.old.vars clause.now }
    ensures vars { marks.new.vars ≡ marks.old.vars }
    ensures stored { OnOk result (StoredBelow marks.old.vars store.new) }
    ensures added { IfOk result (IsAdded (present store.old) clause.now (present store.new)) }
{
    if !is_rup(store, marks, hints, clause)? {
        return Ok(false);
    }
    add_clause(store, marks, hints, clause)?;
    Ok(true)
}

/// Takes out one clause with these literals, if there is one.
fn drop_step(
    store: &mut Store,
    marks: &mut Marks,
    hints: &mut Hints,
    clause: &[Lit],
) -> Result<bool, OutOfMemory>
    requires stored { StoredBelow marks.old.vars store.old }
    requires clause { LitsBelow marks.old.vars clause.now }
    ensures vars { marks.new.vars ≡ marks.old.vars }
    ensures stored { OnOk result (StoredBelow marks.old.vars store.new) }
    ensures dropped { IfOk result (IsDropped (present store.old) clause.now (present store.new)) }
{
    match find(store, marks, hints, clause)? {
        None => Ok(false),
        Some(id) => {
            store.take_out(id);
            Ok(true)
        }
    }
}

/// Does a step, if it is allowed.
fn take_step(
    store: &mut Store,
    marks: &mut Marks,
    hints: &mut Hints,
    step: &Step,
) -> Result<bool, OutOfMemory>
    requires stored { StoredBelow marks.old.vars store.old }
    requires step { LitsBelow marks.old.vars (step_lits step.now) }
    ensures vars { marks.new.vars ≡ marks.old.vars }
    ensures stored { OnOk result (StoredBelow marks.old.vars store.new) }
    ensures taken { IfOk result (IsTaken (present store.old) step.now (present store.new)) }
{
    match step {
        Step::Add(clause) => add_step(store, marks, hints, clause.lits()),
        Step::Drop(clause) => drop_step(store, marks, hints, clause.lits()),
    }
}

/// Adds the clauses of a formula.
fn add_clauses(
    store: &mut Store,
    marks: &mut Marks,
    hints: &mut Hints,
    clauses: &[Clause],
) -> Result<(), OutOfMemory>
    requires empty { store.old ≡ [] }
    requires below { ClausesBelow marks.old.vars clauses.now }
    ensures vars { marks.new.vars ≡ marks.old.vars }
    ensures stored { OnOk result (StoredBelow marks.old.vars store.new) }
    ensures added { OnOk result (present store.new ≡ clauses.now) }
{
    for clause in clauses {
        add_clause(store, marks, hints, clause.lits())?;
    }
    Ok(())
}

/// Whether a step adds the empty clause.
fn adds_empty(step: &Step) -> bool
    ensures { result ≡ adds_empty step.now }
{
    match step {
        Step::Add(clause) => clause.lits().is_empty(),
        Step::Drop(_) => false,
    }
}

/// Whether the last step adds the empty clause.
fn ends_empty(steps: &[Step]) -> bool
    ensures { result ≡ ends_empty steps.now }
{
    match steps.last() {
        Some(step) => adds_empty(step),
        None => false,
    }
}

/// What is to be said where all steps are allowed.
fn end_of(steps: &[Step]) -> Checked
    ensures { result ≡ end_of steps.now }
{
    if ends_empty(steps) {
        Checked::Yes
    } else {
        Checked::No(steps.len())
    }
}

/// Checks that the steps are a certificate of the clauses, in the form of a DRAT proof whose added
/// clauses are RUP. Each step speaks of the clauses that are there after the steps before it.
///
/// The time for a step that adds a clause is that of unit propagation; the time for a step that takes a
/// clause out is that of a look-up.
pub fn check_proof(
    alloc: Global,
    vars: usize,
    clauses: &ClauseList,
    steps: &Vec<Step>,
) -> Result<Checked, OutOfMemory>
    requires clauses { ClausesBelow vars clauses.now }
    requires steps { StepsBelow vars steps.now.items }
    ensures { IfOk result (IsChecked clauses.now steps.now.items) }
{
    let mut store = Store::new(alloc);
    let mut marks = Marks::new(alloc, vars)?;
    let mut hints = Hints::new(alloc);
    add_clauses(&mut store, &mut marks, &mut hints, clauses.clauses())?;
    for k in 0..steps.len() {
        if !take_step(&mut store, &mut marks, &mut hints, &steps[k])? {
            return Ok(Checked::No(k));
        }
    }
    Ok(end_of(steps))
}
