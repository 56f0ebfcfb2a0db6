//! Nodes that make no step: a function for each kind. None of them changes the store or what was kept.

ghost use Rattle.std.specs.Prelude.{◌≡◌, ℕ, ◌<◌, ◌≤◌, max, false, true, Some, None, List, length, IfOk, OnOk};
ghost use Rattle.bit_net.specs.Runs.{Grown, Always};
ghost use Rattle.gl_store.specs.Meets.{val_top};
ghost use Rattle.gl_store.specs.Steps.{IsOverwritten};
ghost use Rattle.flow_graph.specs.Conditions.{InTemp, among, read_by};
ghost use Rattle.flow_graph.specs.Nodes.{Node, Keep, Exit, SetAside};
ghost use Rattle.flow_stages.specs.NodeKinds.{mark_next, branching};
ghost use Rattle.flow_ways.specs.Held.{ways_top, splits_top};
ghost use Rattle.flow_turns.specs.Before.{AreGates, IsHere, GoesBy, drops};
ghost use Rattle.flow_turns.specs.Kept.{AreTemps, is_kept, val_at};
ghost use Rattle.flow_turns.specs.Turns.{Anywhere, IsTest};
ghost use Rattle.sc_world.specs.declared.run.Reason.{Reason};
ghost use Rattle.sc_world.specs.Eval.{Want};
ghost use Rattle.sc_world.specs.Tree.{Exp};

use crate::before::{Arrival, Before};
use crate::temps::Temps;
use bit_net::{Gate, Net, OutOfMemory};
use flow_ways::{Way, Ways};
use gate_values::truth;
use gl_store::{Val, overwrite};

// Holds where the value is that number. What is no number has the number 0.
fn has_number(net: &mut Net, x: &Val, number: u64) -> Result<Gate, OutOfMemory>
    requires { val_top x.now ≤ length net.old }
    ensures grown { Grown net.old net.new }
    ensures ok { IfOk result (λ r. IsTest net.new (Some number) x.now r.at) }
{
    match x {
        Val::Word(word) => {
            let same = bit_words::is_number(net, &word.bits, number)?;
            Ok(same)
        }
        Val::Set(_) | Val::Unit => Ok(net.constant(number == 0)),
    }
}

// Holds where the value is that number, or where it is not 0.
fn test_of(net: &mut Net, x: &Val, number: Option<u64>) -> Result<Gate, OutOfMemory>
    requires { val_top x.now ≤ length net.old }
    ensures grown { Grown net.old net.new }
    ensures ok { IfOk result (λ r. IsTest net.new number x.now r.at) }
{
    match number {
        None => {
            let some = truth(net, x)?;
            Ok(some)
        }
        Some(number) => has_number(net, x, number),
    }
}

// The same of what was kept in a temp.
fn test_in(
    net: &mut Net,
    temps: &Temps,
    from: usize,
    number: Option<u64>,
) -> Result<Gate, OutOfMemory>
    requires { AreTemps net.old temps.now }
    ensures grown { Grown net.old net.new }
    ensures ok { IfOk result (λ r. IsTest net.new number (val_at temps.now from) r.at) }
{
    match temps.vals.get(from) {
        Some(x) => test_of(net, x, number),
        None => test_of(net, &Val::Unit, number),
    }
}

// Lets the ways wait where the other side of the last branch waits, so that they cancel there.
fn go_anywhere(ways: &mut Ways, from: Vec<Way>) -> Result<(), OutOfMemory>
    ensures ok { OnOk result (Anywhere from.items ways.old ways.new) }
    ensures within { OnOk result (ways_top ways.new.waits.items ≤ max (max (ways_top ways.old.waits.items) (ways_top from.items)) (splits_top ways.old.splits.items)) }
{
    let at = match from.last() {
        Some(way) => ways.sibling(*way),
        None => None,
    };
    match at {
        Some(node) => ways.come(node, from),
        None => Ok(()),
    }
}

// Writes what was kept in a temp over a value, where the gate holds.
fn give(
    net: &mut Net,
    when: Gate,
    given: &mut Val,
    temps: &Temps,
    from: usize,
) -> Result<(), OutOfMemory>
    requires when { when.at < length net.old }
    requires val { val_top given.old ≤ length net.old }
    requires temps { AreTemps net.old temps.now }
    ensures grown { Grown net.old net.new }
    ensures ok { OnOk result (IsOverwritten net.new when.at given.old (val_at temps.now from) given.new) }
{
    match temps.vals.get(from) {
        Some(x) => overwrite(net, when, given, x),
        None => overwrite(net, when, given, &Val::Unit),
    }
}

impl Before {
    /// A node that only adds to the trace: the ways go on at the next one.
    pub fn mark(&mut self, net: &Net, here: Arrival, next: usize) -> Result<(), OutOfMemory>
        requires gates { AreGates net.now self.old }
        requires here { IsHere net.now here }
        ensures gates { OnOk result (AreGates net.now self.new) }
        ensures ok { OnOk result ((n : Node) → mark_next n ≡ Some next → GoesBy net.now net.now n here self.old self.new) }
    {
        let Arrival { ways, .. } = here;
        self.ways.come(next, ways)?;
        Ok(())
    }

    /// A node that drops a value of type `void`: the ways go on at the next one.
    pub fn skip(&mut self, net: &Net, here: Arrival, next: usize) -> Result<(), OutOfMemory>
        requires gates { AreGates net.now self.old }
        requires here { IsHere net.now here }
        ensures gates { OnOk result (AreGates net.now self.new) }
        ensures ok { OnOk result ((want : Want) (m : ℕ) (e : Exp) → drops (Keep want m e next) ≡ true
            → GoesBy net.now net.now (Keep want m e next) here self.old self.new) }
    {
        let Arrival { ways, .. } = here;
        self.ways.come(next, ways)?;
        Ok(())
    }

    /// A branch on whether what was kept in a temp is that number, or not 0.
    pub fn branch(
        &mut self,
        net: &mut Net,
        here: Arrival,
        from: usize,
        number: Option<u64>,
        hit: usize,
        miss: usize,
    ) -> Result<(), OutOfMemory>
        requires gates { AreGates net.old self.old }
        requires here { IsHere net.old here }
        ensures grown { Grown net.old net.new }
        ensures gates { OnOk result (AreGates net.new self.new) }
        ensures ok { OnOk result (GoesBy net.old net.new (branching from number hit miss) here self.old self.new) }
    {
        let test = test_in(net, &self.temps, from, number)?;
        let Arrival { ways, gate } = here;
        self.ways.branch(net, ways, gate, test, hit, miss)?;
        Ok(())
    }

    /// The function ends, with what was kept in a temp, or without a value.
    pub fn exit(
        &mut self,
        net: &mut Net,
        here: Arrival,
        from: Option<usize>,
    ) -> Result<(), OutOfMemory>
        requires gates { AreGates net.old self.old }
        requires here { IsHere net.old here }
        ensures grown { Grown net.old net.new }
        ensures gates { OnOk result (AreGates net.new self.new) }
        ensures ok { OnOk result (GoesBy net.old net.new (Exit from) here self.old self.new) }
    {
        match from {
            None => self.exit_without(net, &here),
            Some(from) => self.exit_with(net, &here, from),
        }
    }

    // The function ends without a value.
    fn exit_without(&mut self, net: &mut Net, here: &Arrival) -> Result<(), OutOfMemory>
        requires gates { AreGates net.old self.old }
        requires here { IsHere net.old here.now }
        ensures grown { Grown net.old net.new }
        ensures gates { OnOk result (AreGates net.new self.new) }
        ensures ok { OnOk result (GoesBy net.old net.new (Exit None) here.now self.old self.new) }
    {
        overwrite(net, here.gate, &mut self.result, &self.blank)?;
        Ok(())
    }

    // The function ends with what was kept in a temp.
    fn exit_with(&mut self, net: &mut Net, here: &Arrival, from: usize) -> Result<(), OutOfMemory>
        requires gates { AreGates net.old self.old }
        requires here { IsHere net.old here.now }
        ensures grown { Grown net.old net.new }
        ensures gates { OnOk result (AreGates net.new self.new) }
        ensures ok { OnOk result (GoesBy net.old net.new (Exit (Some from)) here.now self.old self.new) }
    {
        give(net, here.gate, &mut self.result, &self.temps, from)?;
        Ok(())
    }

    /// The walk is set aside. Where its ways go on says nothing any more.
    pub fn set_aside(&mut self, net: &mut Net, here: Arrival) -> Result<(), OutOfMemory>
        requires gates { AreGates net.old self.old }
        requires here { IsHere net.old here }
        ensures grown { Grown net.old net.new }
        ensures gates { OnOk result (AreGates net.new self.new) }
        ensures ok { OnOk result ((reason : Reason) → GoesBy net.old net.new (SetAside reason) here self.old self.new) }
    {
        let Arrival { ways, gate } = here;
        self.fates.set_aside(net, gate)?;
        go_anywhere(&mut self.ways, ways)?;
        Ok(())
    }

    /// A node to which no walk comes, since no way to it ever holds: nothing is done.
    pub fn pass(&self, net: &Net, here: &Arrival)
        requires never { Always net.now (λ choice v. v here.now.gate.at ≡ false) }
        ensures { (n : Node) → GoesBy net.now net.now n here.now self.now self.now }
    {
        let _net = net;
        let _here = here;
    }

    /// A node to which no walk comes, since it reads a temp that no node has kept: nothing is done.
    pub fn pass_unread(&self, net: &Net, here: &Arrival, temp: usize)
        requires unread { is_kept self.now.temps temp ≡ false }
        ensures { (n : Node) → drops n ≡ false → among (InTemp temp) (read_by n) ≡ true → GoesBy net.now net.now n here.now self.now self.now }
    {
        let _net = net;
        let _here = here;
        let _temp = temp;
    }
}
