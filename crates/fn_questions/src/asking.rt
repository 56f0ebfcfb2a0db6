//! The gate of every question.

ghost use Rattle.std.specs.Prelude.{◌≡◌, ◌&&◌, All, IfOk, IfSome, IsTrue, List, OnOk};
ghost use Rattle.bit_net.specs.Runs.{Grown};
ghost use Rattle.bit_net.specs.declared.nodes.Node.{Node};
ghost use Rattle.flow_ends.specs.Encoded.{IsAnswer};
ghost use Rattle.location_texts.specs.Seen as spelled;
ghost use Rattle.run_questions.specs.Seen.{query};
ghost use Rattle.run_world.specs.Seen.{env};
ghost use Rattle.sc_world.specs.Shows as spec;
ghost use Rattle.fn_facts.specs.Seen as seen;
ghost use Rattle.fn_facts.specs.Showing.{Shows};
ghost use Rattle.fn_facts.specs.declared.around.Around.{Around};
ghost use Rattle.fn_questions.specs.Asking.{AreFacts, HasWalk, IsReadyToAsk, ShowsEnd};

use crate::facts::{Begun, Ended, Facts};
use crate::kinds::{cell_from, result_from};
use crate::rows::{Pointed, has_changed, has_exit_row, has_out_row, has_param_row};
use bit_net::{Gate, Net, OutOfMemory};
use fn_facts::{
    begins, ends_at, ends_at_text, ends_so, has_lock_row, param_object, sets, touches, writes,
};
use fn_walks::{Beside, From, Walk, escape_from, loses, loss_from, walked};
use run_questions::Query;
use sc_base::Pos;
use sum_rows::Row;

// Whether the same holders do not count.
fn is_beside(a: Beside, b: Beside) -> bool
    ensures { IsTrue result → a ≡ b }
{
    match (a, b) {
        (Beside::Nothing, Beside::Nothing) => true,
        (Beside::Object(m), Beside::Object(n)) => m == n,
        (Beside::Cell(m), Beside::Cell(n)) => m == n,
        _ => false,
    }
}

// Whether the walks begin there.
fn is_from(walk: &Walk, from: From) -> bool
    ensures { IsTrue result → walk.now.from ≡ from }
{
    walk.from.result == from.result && is_beside(walk.from.beside, from.beside)
}

// The gate of the end of a row of a location, if it is among these.
fn known_end(ended: &[Ended], at: u32, row: Row) -> Option<Gate>
    ensures { (a : Around) (ns : List Node) → All (ShowsEnd a ns) ended.now
        → IfSome result (λ g. Shows a ns (λ o. spec.exits o && seen.ends_so o at row) g.at) }
{
    for end in ended {
        if end.is_end_of(at, row) {
            return Some(end.gate);
        }
    }
    None
}

// Whether these are ends of rows of that location, as far as the first one tells.
fn is_of(ended: &[Ended], at: u32) -> bool {
    match ended.first() {
        Some(end) => end.at == at,
        None => true,
    }
}

impl<'p, 'm, 'f> Facts<'p, 'm, 'f> {
    // Keeps the walks that begin there: those that were asked for last, or new ones.
    #[tactic(auto, using(crate::proofs::Ready::facts_grow))]
    fn keep_walk(&mut self, net: &mut Net, from: From) -> Result<(), OutOfMemory>
        requires facts { AreFacts net.old self.old }
        ensures grown { Grown net.old net.new }
        ensures facts { AreFacts net.new self.new }
        ensures around { self.new.around ≡ self.old.around }
        ensures texts { self.new.texts ≡ self.old.texts }
        ensures walk { OnOk result (HasWalk self.new from) }
    {
        if let Some(walk) = &self.walk
            && is_from(walk, from)
        {
            return Ok(());
        }
        let walk = walked(&self.around, net, from)?;
        self.walk = Some(walk);
        Ok(())
    }

    // Holds where the run has that row of its end.
    #[tactic(auto, using(crate::proofs::Ready::facts_grow))]
    fn exits(&mut self, net: &mut Net, row: Row) -> Result<Gate, OutOfMemory>
        requires facts { AreFacts net.old self.old }
        ensures grown { Grown net.old net.new }
        ensures facts { AreFacts net.new self.new }
        ensures around { self.new.around ≡ self.old.around }
        ensures texts { self.new.texts ≡ self.old.texts }
        ensures ok { IfOk result (λ r. Shows self.old.around net.new (λ o. spec.says (spelled.texts self.old.texts) o (spec.Exits row)) r.at) }
    {
        self.keep_walk(net, result_from())?;
        match &self.walk {
            Some(walk) => {
                let exits = has_exit_row(&self.around, net, &self.shared, walk, row)?;
                Ok(exits)
            }
            None => Err(OutOfMemory),
        }
    }

    // Holds where a row of a location begins so.
    fn begins(&mut self, net: &mut Net, at: u32, row: Row) -> Result<Gate, OutOfMemory>
        requires facts { AreFacts net.old self.old }
        ensures grown { Grown net.old net.new }
        ensures facts { AreFacts net.new self.new }
        ensures around { self.new.around ≡ self.old.around }
        ensures texts { self.new.texts ≡ self.old.texts }
        ensures ok { IfOk result (λ r. Shows self.old.around net.new (λ o. seen.begins o at row) r.at) }
    {
        if let Some(begun) = self.begun
            && begun.is_begin_of(at, row)
        {
            return Ok(begun.gate);
        }
        let given = self.shared.given.bits.as_slice();
        let gate = begins(&self.around, net, given, at, row)?;
        self.begun = Some(Begun { at, row, gate });
        Ok(gate)
    }

    // Holds where the run comes to the function's end, and a row of a location ends so. What was asked for of one location is kept.
    fn ends(&mut self, net: &mut Net, at: u32, row: Row) -> Result<Gate, OutOfMemory>
        requires facts { AreFacts net.old self.old }
        ensures grown { Grown net.old net.new }
        ensures facts { AreFacts net.new self.new }
        ensures around { self.new.around ≡ self.old.around }
        ensures texts { self.new.texts ≡ self.old.texts }
        ensures ok { IfOk result (λ r. Shows self.old.around net.new (λ o. spec.exits o && seen.ends_so o at row) r.at) }
    {
        if let Some(gate) = known_end(self.ended.as_slice(), at, row) {
            return Ok(gate);
        }
        let gate = ends_so(&self.around, net, self.shared.truth, at, row)?;
        if !is_of(self.ended.as_slice(), at) {
            self.ended = Vec::new(net.alloc());
        }
        self.ended.push(Ended { at, row, gate })?;
        Ok(gate)
    }

    // Holds where the run has that row of a location.
    fn locks(&mut self, net: &mut Net, at: u32, row: Row) -> Result<Gate, OutOfMemory>
        requires facts { AreFacts net.old self.old }
        ensures grown { Grown net.old net.new }
        ensures facts { AreFacts net.new self.new }
        ensures around { self.new.around ≡ self.old.around }
        ensures texts { self.new.texts ≡ self.old.texts }
        ensures ok { IfOk result (λ r. Shows self.old.around net.new (λ o. spec.says (spelled.texts self.old.texts) o (spec.Locks at row)) r.at) }
    {
        let begins = self.begins(net, at, row)?;
        let ends = self.ends(net, at, row)?;
        let locks = has_lock_row(&self.around, net, begins, ends, at, row)?;
        Ok(locks)
    }

    // Holds where the run comes to the function's end, and has freed what the parameter points to, or let it escape.
    #[tactic(auto, using(crate::proofs::Ready::facts_grow))]
    fn changes(&mut self, net: &mut Net, n: u32) -> Result<Gate, OutOfMemory>
        requires facts { AreFacts net.old self.old }
        ensures grown { Grown net.old net.new }
        ensures facts { AreFacts net.new self.new }
        ensures around { self.new.around ≡ self.old.around }
        ensures texts { self.new.texts ≡ self.old.texts }
        ensures ok { IfOk result (λ r. Shows self.old.around net.new (λ o. spec.says (spelled.texts self.old.texts) o (spec.Changes n)) r.at) }
    {
        let object = param_object(&self.around, n);
        let from = escape_from(&self.around, object);
        self.keep_walk(net, from)?;
        match &self.walk {
            Some(walk) => {
                let changes = has_changed(&self.around, net, walk, object)?;
                Ok(changes)
            }
            None => Err(OutOfMemory),
        }
    }

    // Holds where the run has that row of the object that a parameter points to.
    #[tactic(auto, using(crate::proofs::Ready::facts_grow))]
    fn params(&mut self, net: &mut Net, number: u32, row: Row) -> Result<Gate, OutOfMemory>
        requires facts { AreFacts net.old self.old }
        ensures grown { Grown net.old net.new }
        ensures facts { AreFacts net.new self.new }
        ensures around { self.new.around ≡ self.old.around }
        ensures texts { self.new.texts ≡ self.old.texts }
        ensures ok { IfOk result (λ r. Shows self.old.around net.new (λ o. spec.says (spelled.texts self.old.texts) o (spec.Params number row)) r.at) }
    {
        let object = param_object(&self.around, number);
        let from = escape_from(&self.around, object);
        self.keep_walk(net, from)?;
        let param = Pointed { number, object };
        match &self.walk {
            Some(walk) => {
                let params = has_param_row(&self.around, net, &self.shared, walk, param, row)?;
                Ok(params)
            }
            None => Err(OutOfMemory),
        }
    }

    // Holds where the run has that row of the pointer that a parameter points to.
    #[tactic(auto, using(crate::proofs::Ready::facts_grow))]
    fn outs(&mut self, net: &mut Net, number: u32, row: Row) -> Result<Gate, OutOfMemory>
        requires facts { AreFacts net.old self.old }
        ensures grown { Grown net.old net.new }
        ensures facts { AreFacts net.new self.new }
        ensures around { self.new.around ≡ self.old.around }
        ensures texts { self.new.texts ≡ self.old.texts }
        ensures ok { IfOk result (λ r. Shows self.old.around net.new (λ o. spec.says (spelled.texts self.old.texts) o (spec.Outs number row)) r.at) }
    {
        let object = param_object(&self.around, number);
        self.keep_walk(net, cell_from(object))?;
        let param = Pointed { number, object };
        match &self.walk {
            Some(walk) => {
                let outs = has_out_row(&self.around, net, &self.shared, walk, param, row)?;
                Ok(outs)
            }
            None => Err(OutOfMemory),
        }
    }

    // Holds where the run comes to the function's end, and an object of a call at the place is lost.
    #[tactic(auto, using(crate::proofs::Ready::facts_grow))]
    fn leaks(&mut self, net: &mut Net, pos: Pos) -> Result<Gate, OutOfMemory>
        requires facts { AreFacts net.old self.old }
        ensures grown { Grown net.old net.new }
        ensures facts { AreFacts net.new self.new }
        ensures around { self.new.around ≡ self.old.around }
        ensures texts { self.new.texts ≡ self.old.texts }
        ensures ok { IfOk result (λ r. Shows self.old.around net.new (λ o. spec.says (spelled.texts self.old.texts) o (spec.Leaks pos)) r.at) }
    {
        self.keep_walk(net, loss_from())?;
        match &self.walk {
            Some(walk) => {
                let leaks = loses(&self.around, net, walk, pos)?;
                Ok(leaks)
            }
            None => Err(OutOfMemory),
        }
    }

    // Holds where the run answers yes.
    #[tactic(auto, using(crate::proofs::Ready::facts_grow))]
    fn says(&mut self, net: &mut Net, asked: Query) -> Result<Gate, OutOfMemory>
        requires facts { AreFacts net.old self.old }
        ensures grown { Grown net.old net.new }
        ensures facts { AreFacts net.new self.new }
        ensures around { self.new.around ≡ self.old.around }
        ensures texts { self.new.texts ≡ self.old.texts }
        ensures ok { IfOk result (λ r. Shows self.old.around net.new (λ o. spec.says (spelled.texts self.old.texts) o (query asked.entry)) r.at) }
    {
        match asked {
            Query::Exits(row) => self.exits(net, row),
            Query::Touches(at) => touches(&self.around, net, self.shared.known, at),
            Query::Locks(at, row) => self.locks(net, at, row),
            Query::Changes(n) => self.changes(net, n),
            Query::Params(n, row) => self.params(net, n, row),
            Query::Sets(n) => sets(&self.around, net, n),
            Query::Outs(n, row) => self.outs(net, n, row),
            Query::Writes(at) => writes(&self.around, net, at),
            Query::EndsAt(at) => Ok(ends_at(&self.around, net, at)),
            Query::Errs(text) => ends_at_text(&self.around, &self.texts, net, text),
            Query::Leaks(pos) => self.leaks(net, pos),
        }
    }

    /// The gate of a question: it holds for just those choices whose run answers yes. Any question may be asked after it, also where memory
    /// was refused.
    pub fn question(&mut self, net: &mut Net, asked: Query) -> Result<Gate, OutOfMemory>
        requires ready { IsReadyToAsk net.old self.old }
        ensures grown { Grown net.old net.new }
        ensures ready { IsReadyToAsk net.new self.new }
        ensures around { self.new.around ≡ self.old.around }
        ensures texts { self.new.texts ≡ self.old.texts }
        ensures ok { IfOk result (λ r. IsAnswer (env self.old.around.here).source (spelled.texts self.old.texts) net.new (query asked.entry) r.at) }
    {
        let says = self.says(net, asked)?;
        Ok(says)
    }
}
