// Where a statement goes on, and the labels that stand further on.

ghost use Rattle.std.specs.Prelude.{◌≡◌, ◌<◌, length, OnOk};
ghost use Rattle.scopes.specs.Frames as frames;
ghost use Rattle.sc_world.specs.View.{stm};
ghost use Rattle.flow_graph.specs.Statements as spec;
ghost use Rattle.sc_flow.specs.Seen as seen;

use sc_base::{NameId, OutOfMemory};
use sc_gather::Context;
use sc_typed::TStmt;
use scopes::Scopes;

/// The nodes where a statement goes on: behind it, at a `break`, at a `continue`, and at a label that is nowhere.
#[derive(Clone, Copy)]
pub struct Ways {
    pub next: u32,
    pub leave: u32,
    pub again: u32,
    pub lost: u32,
}

// The place of the nearest label of that name, by hash.
#[tactic(auto, using(crate::proofs::Labels::look_some, crate::proofs::Labels::look_none))]
pub fn look(labels: &Scopes<u32>, name: NameId, lost: u32) -> u32
    ensures { result ≡ spec.look name (seen.labels labels.now) lost }
{
    match labels.get(name) {
        None => lost,
        Some(at) => *at,
    }
}

/// Opens a block with no label in it.
#[tactic(auto, using(crate::proofs::Labels::none_more, crate::proofs::Labels::none_more_round, crate::proofs::Labels::none_more_open))]
pub fn open_block(labels: &mut Scopes<u32>) -> Result<(), OutOfMemory>
    ensures labels { OnOk result (seen.labels labels.new ≡ seen.labels labels.old) }
    ensures round { OnOk result (frames.closed labels.new ≡ labels.old) }
    ensures within { OnOk result (0 < length labels.new.blocks) }
{
    labels.open()
}

// The labels in front of a statement, which begins at that node. They are those of the innermost block.
#[tactic(auto, using(crate::proofs::Labels::one_more, crate::proofs::Labels::one_more_round, crate::proofs::Labels::one_more_open))]
pub fn name_labels(
    labels: &mut Scopes<u32>,
    here: &Context,
    s: &TStmt,
    at: u32,
) -> Result<(), OutOfMemory>
    requires { 0 < length labels.old.blocks }
    ensures labels { OnOk result (seen.labels labels.new
        ≡ spec.labels_of (stm (seen.structs_of here.now) s.now) at (seen.labels labels.old)) }
    ensures round { OnOk result (frames.closed labels.new ≡ frames.closed labels.old) }
    ensures within { OnOk result (0 < length labels.new.blocks) }
{
    match s {
        TStmt::Label(name, x, _) => {
            name_labels(labels, here, x.get(), at)?;
            labels.declare(*name, at)?;
            Ok(())
        }
        TStmt::Block(_, _, _)
        | TStmt::Decl(_, _)
        | TStmt::Expr(_, _)
        | TStmt::If(_, _, _, _)
        | TStmt::While(_, _, _)
        | TStmt::Do(_, _, _)
        | TStmt::For(_, _, _, _, _)
        | TStmt::Switch(_, _, _, _)
        | TStmt::Case(_, _, _)
        | TStmt::Default(_)
        | TStmt::Goto(_, _)
        | TStmt::Break(_)
        | TStmt::Continue(_)
        | TStmt::Return(_, _) => Ok(()),
    }
}
