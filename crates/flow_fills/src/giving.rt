//! Nodes that keep the cells of a value in a slot (C11 6.7.9).

ghost use Rattle.std.specs.Prelude.{◌<◌, ◌^◌, length, OnOk};
ghost use Rattle.bit_net.specs.Runs.{Grown};
ghost use Rattle.sc_world.specs.View.{type};
ghost use Rattle.gate_places.specs.Places.{IsLaid};
ghost use Rattle.flow_turns.specs.Before.{AreGates, IsHere};
ghost use Rattle.flow_turns.specs.Steps.{IsMade};
ghost use Rattle.flow_fills.specs.Laid.{IsLooked, layout_of, source_of};
ghost use Rattle.flow_fills.specs.Fills.{KeepsCells};

use crate::laid::Laid;
use crate::slots::{Given, settle};
use bit_net::{Net, OutOfMemory};
use flow_turns::{Arrival, Before, Made};
use gate_inits::cells_given;
use sc_tree::ctype::CType;

/// The type of the value whose cells a node keeps, the slot in which it keeps them, and the node at which the walk goes on.
#[derive(Clone, Copy)]
pub struct Giving<'t> {
    pub ctype: &'t CType,
    pub slot: usize,
    pub next: usize,
}

/// Behind the evaluation of an expression: the cells of its value are kept, how the step ended is told, and the walk goes on.
pub fn keep_cells(
    laid: &Laid,
    before: &mut Before,
    net: &mut Net,
    here: Arrival,
    made: Made,
    giving: &Giving,
) -> Result<(), OutOfMemory>
    requires looked { IsLooked laid.now }
    requires gates { AreGates net.old before.old }
    requires few { length before.old.fates.bads.items < 2 ^ 32 }
    requires here { IsHere net.old here }
    requires made { IsMade net.old (length before.old.fates.bads.items) made }
    requires laid { IsLaid (source_of laid.now) (layout_of laid.now) before.old.store.locations.items }
    requires slot { giving.now.slot < length before.old.temps.slots.items }
    ensures grown { Grown net.old net.new }
    ensures gates { OnOk result (AreGates net.new before.new) }
    ensures ok { OnOk result (KeepsCells (source_of laid.now) (layout_of laid.now) net.old net.new
        (type giving.now.ctype.now) giving.now.slot giving.now.next here made before.old before.new) }
{
    let Made {
        on,
        ends,
        val,
        sure: _,
    } = made;
    let cells = cells_given(
        laid.here,
        laid.layout,
        net,
        &before.store,
        giving.ctype,
        val,
    )?;
    settle(
        before,
        net,
        here,
        Given { on, ends, cells },
        giving.slot,
        giving.next,
    )?;
    Ok(())
}
