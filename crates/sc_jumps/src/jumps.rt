// The labels and jumps of a body. Labels are found by hash, so a `goto` costs the same however many there are.

ghost use Rattle.std.specs.Prelude.{◌≡◌, OnOk, IfOk};
ghost use Rattle.std.specs.Option.{option_copied};
ghost use Rattle.sc_jumps.specs.Jumps as spec;

use sc_base::{Keyed, List, NameId, OutOfMemory, Pos};
use std::alloc::Global;
use std::marker::Model;

/// A step from a statement into one that stands in it.
#[derive(Clone, Copy, Debug, PartialEq, Eq)]
pub enum Inward {
    /// To the item of a block or a `switch` with that number.
    Item(usize),
    /// To the part of another statement with that number: 1 for what stands behind `else`, else 0.
    Part(usize),
}

/// A `goto`, with the steps that lead to it, the outermost first.
#[derive(Drop)]
pub struct Goto {
    pub name: NameId,
    pub pos: Pos,
    pub way: List<Inward>,
}

/// The labels and jumps of a body: the first label of each name with the steps that lead to it, the places of the
/// labels that have one of these names once more, and each `goto`, all in the order of the text.
#[derive(Drop)]
pub struct Jumps {
    labels: Keyed<u32, List<Inward>>,
    again: List<Pos>,
    gotos: List<Goto>,
}

impl Model for Jumps {
    ghost use Rattle.sc_jumps.specs.Jumps.{Found};

    ghost Value = { Found };

    ghost view = { λ j. record { labels = j.labels; again = j.again; gotos = j.gotos } };
}

impl Jumps {
    /// No label and no `goto`. It takes no memory.
    pub(crate) fn new(alloc: Global) -> Jumps
        ensures { result ≡ spec.nothing }
    {
        Jumps {
            labels: Keyed::new(alloc),
            again: List::new(alloc),
            gotos: List::new(alloc),
        }
    }

    /// The way to the label of that name.
    pub fn label(&self, name: NameId) -> Option<&List<Inward>>
        ensures { option_copied result ≡ spec.label_of name self.now }
    {
        self.labels.get(&name.at)
    }

    /// The places of labels whose name stands before another statement already.
    pub fn again(&self) -> &[Pos]
        ensures { result.now ≡ self.now.again }
    {
        self.again.as_slice()
    }

    /// Each `goto`.
    pub fn gotos(&self) -> &[Goto]
        ensures { result.now ≡ self.now.gotos }
    {
        self.gotos.as_slice()
    }

    /// Notes a label at the end of that way.
    pub(crate) fn add_label(
        &mut self,
        name: NameId,
        pos: Pos,
        way: &Vec<Inward>,
    ) -> Result<(), OutOfMemory>
        ensures { OnOk result (self.new ≡ spec.with_label name pos way.now.items self.old) }
    {
        if self.labels.contains(&name.at) {
            self.again.push(pos)?;
            return Ok(());
        }
        let way = copied(way)?;
        self.labels.insert(name.at, way)?;
        Ok(())
    }

    /// Notes a `goto` at the end of that way.
    pub(crate) fn add_goto(
        &mut self,
        name: NameId,
        pos: Pos,
        way: &Vec<Inward>,
    ) -> Result<(), OutOfMemory>
        ensures { OnOk result (self.new ≡ spec.with_goto name pos way.now.items self.old) }
    {
        let way = copied(way)?;
        self.gotos.push(Goto { name, pos, way })?;
        Ok(())
    }
}

// The steps once more.
fn copied(way: &Vec<Inward>) -> Result<List<Inward>, OutOfMemory>
    ensures { IfOk result (λ copy. copy ≡ way.now.items) }
{
    let copy = way.clone()?;
    Ok(List::from_vec(copy))
}
