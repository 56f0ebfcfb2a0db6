// The trail: the literals that are true, in the order in which they became so. The variables behind
// the last step keep their places until others take them. Beside the steps stands a table of which
// literals are true, for the looks that happen most; no contract speaks of it.

ghost use Rattle.std.specs.Prelude.{◌≡◌, ◌<◌, ◌≤◌, ◌+◌, ℕ, Bool, List, [], ◌∷◌, ◌++◌, true, false, length, take, drop, slice_get, slice_index, slice_index_or, IfSome, MatchOption, Some, IsTrue, OnOk, OnErr};
ghost use Rattle.sat_base.specs.declared.literal.Lit.{Lit};
ghost use Rattle.sat_base.specs.Logic.{negation, lit_true};
ghost use Rattle.sat_trail.specs.Order.{IsOrder, differs};
ghost use Rattle.sat_trail.specs.Steps.{AllTrue, AllImplied, Tells, IsPut};

use sat_base::{Lit, OutOfMemory};
use sat_clauses::{ClauseId, Code};
use std::alloc::Global;
use std::marker::Model;

/// A literal that is true, and why.
#[derive(Clone, Copy, Debug)]
pub struct Step {
    pub lit: Lit,
    /// Whether it follows from the steps before it; else it is a decision.
    pub implied: bool,
    /// The clause that implied it, if one did.
    pub reason: Option<ClauseId>,
}

/// What became of a step that was to be put.
#[derive(Clone, Copy, Debug)]
pub enum Put {
    /// It is the last step now.
    Done,
    /// Its variable has this value already.
    Taken(bool),
    /// There is no such variable.
    Absent,
}

/// The steps so far. Contracts see the number of variables and the list of the steps.
#[derive(Debug, Drop)]
pub struct Trail {
    order: Vec<Step>,
    places: Vec<usize>,
    len: usize,
    /// For the code of each literal whether it is true.
    holds: Vec<bool>,
}

impl Model for Trail {
    ghost use Rattle.std.specs.Prelude.{length, take, ◌≤◌};
    ghost use Rattle.sat_trail.specs.Steps.{TrailState};
    ghost use Rattle.sat_trail.specs.Order.{IsOrder};

    ghost Value = { TrailState };

    ghost view = { λ t. record { vars = length t.places.items; steps = take t.len t.order.items } };

    ghost invariant = { λ t. (t.len ≤ length t.order.items) × IsOrder t.order.items t.places.items };
}

/// Puts a step at place k, and what stood there at the place where the step's variable was.
fn exchange(order: &mut Vec<Step>, places: &mut Vec<usize>, k: usize, step: Step)
    requires order { IsOrder order.old.items places.old.items }
    requires variable { step.lit.var < length places.old.items }
    requires place { k ≤ slice_index places.old.items step.lit.var }
    ensures order { IsOrder order.new.items places.new.items }
    ensures vars { length places.new.items ≡ length places.old.items }
    ensures steps { take (k + 1) order.new.items ≡ take k order.old.items ++ step ∷ [] }
    ensures room { k < length order.new.items }
{
    let var = step.lit.var;
    let place = places[var];
    let moved = order[k];
    order[place] = moved;
    places[moved.lit.var] = place;
    order[k] = step;
    places[var] = k;
}

/// Puts a new variable behind all others. Where memory is refused all is as before.
fn append(order: &mut Vec<Step>, places: &mut Vec<usize>) -> Result<(), OutOfMemory>
    requires { IsOrder order.old.items places.old.items }
    ensures order { IsOrder order.new.items places.new.items }
    ensures ok { OnOk result (length places.new.items ≡ length places.old.items + 1) }
    ensures err { OnErr result (length places.new.items ≡ length places.old.items) }
    ensures longer { length order.old.items ≤ length order.new.items }
    ensures steps { (k : ℕ) → k ≤ length order.old.items → take k order.new.items ≡ take k order.old.items }
{
    let var = order.len();
    let step = Step {
        lit: Lit { var, neg: true },
        implied: false,
        reason: None,
    };
    order.push(step)?;
    match places.push(var) {
        Ok(()) => Ok(()),
        Err(_) => {
            order.truncate(var);
            Err(OutOfMemory)
        }
    }
}

/// Notes of these steps that their literals are true, or that they are open.
fn note_steps(holds: &mut Vec<bool>, steps: &[Step], value: bool) {
    for step in steps {
        let code = Code::of(step.lit).index();
        if code < holds.len() {
            holds[code] = value;
        }
    }
}

/// Notes that the steps from place k on, up to the last of the first so many, are taken back.
fn note_open(holds: &mut Vec<bool>, order: &[Step], k: usize, len: usize) {
    if let Some(steps) = order.get(k..len) {
        note_steps(holds, steps, false);
    }
}

/// The place of a variable, if there is such a variable.
fn place_of(places: &[usize], var: usize) -> Option<usize>
    ensures { result ≡ slice_get places.now var }
{
    places.get(var).copied()
}

/// Whether two signs differ.
pub fn differs(one: bool, other: bool) -> bool
    ensures { result ≡ differs one other }
{
    if one { !other } else { other }
}

impl Trail {
    /// No step, and no variable. It takes no memory.
    pub fn empty(alloc: Global) -> Trail
        ensures { result ≡ record { vars = 0; steps = [] } }
    {
        Trail {
            order: Vec::new(alloc),
            places: Vec::new(alloc),
            len: 0,
            holds: Vec::new(alloc),
        }
    }

    /// Takes all steps back.
    pub fn clear(&mut self)
        ensures vars { self.new.vars ≡ self.old.vars }
        ensures steps { self.new.steps ≡ [] }
    {
        note_open(&mut self.holds, self.order.as_slice(), 0, self.len);
        self.len = 0;
    }

    /// One variable more, which has no value. Where memory is refused the trail is as before.
    pub fn grow(&mut self) -> Result<(), OutOfMemory>
        ensures steps { self.new.steps ≡ self.old.steps }
        ensures ok { OnOk result (self.new.vars ≡ self.old.vars + 1) }
        ensures err { OnErr result (self.new.vars ≡ self.old.vars) }
    {
        self.holds.push(false)?;
        self.holds.push(false)?;
        append(&mut self.order, &mut self.places)
    }

    /// The number of steps.
    pub fn len(&self) -> usize
        ensures len { result ≡ length self.now.steps }
        ensures room { result ≤ self.now.vars }
    {
        self.len
    }

    /// The number of variables.
    pub fn vars(&self) -> usize
        ensures { result ≡ self.now.vars }
    {
        self.places.len()
    }

    /// The step at a place.
    pub fn at(&self, place: usize) -> Step
        requires { place < length self.now.steps }
        ensures { slice_get self.now.steps place ≡ Some result }
    {
        self.order[place]
    }

    /// The place of a literal's negation, if that is true.
    pub fn place_false(&self, lit: Lit) -> Option<usize>
        ensures { IfSome result (λ j. (j < length self.now.steps)
            × ((s : Step) → slice_get self.now.steps j ≡ Some s → s.lit ≡ negation lit)) }
    {
        let place = self.places.get(lit.var).copied()?;
        if place < self.len && self.order[place].lit.neg != lit.neg {
            Some(place)
        } else {
            None
        }
    }

    /// Whether a literal is false by the first steps, so many as this.
    pub fn is_false_before(&self, k: usize, lit: Lit) -> bool
        requires { k ≤ length self.now.steps }
        ensures { IsTrue result → Tells (take k self.now.steps) lit false }
    {
        match place_of(self.places.as_slice(), lit.var) {
            None => false,
            Some(place) => place < k && differs(self.order[place].lit.neg, lit.neg),
        }
    }

    /// Whether the literal of a code is true. Nothing rests on the answer.
    pub fn is_true(&self, code: Code) -> bool {
        self.holds.get(code.index()).copied() == Some(true)
    }

    /// The clause that gave a variable its value, if one did. Nothing rests on the answer.
    pub fn reason(&self, var: usize) -> Option<ClauseId> {
        match self.places.get(var).copied() {
            Some(place) if place < self.len => self.order[place].reason,
            _ => None,
        }
    }

    /// Takes back all but the first k steps, and puts this one behind them, unless its variable has
    /// a value by those or is none: then nothing changes.
    pub fn put(&mut self, k: usize, step: Step) -> Put
        requires { k ≤ length self.old.steps }
        ensures vars { self.new.vars ≡ self.old.vars }
        ensures put { IsPut self.old self.new k step result }
        ensures room { length self.new.steps ≤ self.new.vars }
    {
        match place_of(self.places.as_slice(), step.lit.var) {
            None => Put::Absent,
            Some(place) if place < k => Put::Taken(!self.order[place].lit.neg),
            Some(_) => {
                note_open(&mut self.holds, self.order.as_slice(), k, self.len);
                note_steps(&mut self.holds, &[step], true);
                exchange(&mut self.order, &mut self.places, k, step);
                self.len = k + 1;
                Put::Done
            }
        }
    }

    /// Takes back all but the first k steps, and puts the negation of the next as implied.
    pub fn flip(&mut self, k: usize)
        requires { k < length self.old.steps }
        ensures vars { self.new.vars ≡ self.old.vars }
        ensures flipped { (s : Step) → slice_get self.old.steps k ≡ Some s
            → self.new.steps ≡ take k self.old.steps ++ record { lit = negation s.lit; implied = true; reason = None } ∷ [] }
    {
        let lit = self.order[k].lit.negated();
        note_open(&mut self.holds, self.order.as_slice(), k, self.len);
        let step = Step {
            lit,
            implied: true,
            reason: None,
        };
        note_steps(&mut self.holds, &[step], true);
        self.order[k] = step;
        self.len = k + 1;
    }

    /// The place of the last decision, if there is one.
    pub fn last_decision(&self) -> Option<usize>
        ensures { MatchOption result
            (AllImplied self.now.steps)
            (λ k. (k < length self.now.steps)
            × ((s : Step) → slice_get self.now.steps k ≡ Some s → s.implied ≡ false)
            × AllImplied (drop (k + 1) self.now.steps)) }
    {
        let mut behind = self.len();
        while behind > 0 {
            let place = behind - 1;
            let step = self.at(place);
            if !step.implied {
                return Some(place);
            }
            behind = place;
        }
        None
    }
}
