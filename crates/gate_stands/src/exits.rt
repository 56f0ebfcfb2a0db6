// The rows of the end.

ghost use Rattle.std.specs.Prelude.{◌≡◌, ℕ, ◌≤◌, Bool, length, IfOk};
ghost use Rattle.bit_net.specs.Runs.{Grown};
ghost use Rattle.bit_words.specs.Number.{top};
ghost use Rattle.sum_rows.specs.declared.row.State.{State as States};
ghost use Rattle.sc_world.specs.Known as spec;
ghost use Rattle.gate_rows.specs.Given.{IsKindBelow, is_kind};
ghost use Rattle.gate_rows.specs.Sought.{IsOutcomeBelow, IsSideBelow, is_side};
ghost use Rattle.gate_stands.specs.Exits.{ExitStands, IsKindSide};

use crate::sought::sought_row;
use bit_net::{Gate, Net, OutOfMemory};
use gate_rows::{Given, Side, has_row};
use sum_rows::{Item, ItemRows, Row, State};

/// The rows of the end, which is the first item.
pub fn exit_rows(items: &[ItemRows]) -> &[Row]
    ensures { result.now ≡ spec.exit_rows items.now }
{
    match items {
        [] => &[],
        [first, ..] => match first.item {
            Item::Exit => first.rows.as_slice(),
            Item::Lock(_) | Item::Param(_) | Item::Out(_) => &[],
        },
    }
}

// The state of what is given: none has one but a pointer.
#[tactic(auto, using(crate::proofs::Ending::no_kind, crate::proofs::Ending::pointer_kind))]
fn kind_side(given: &Given) -> Side<'_>
    ensures { IsKindSide given.now.kind result }
{
    match &given.kind {
        None => Side::Named(State::Nil),
        Some(word) => Side::Pointer(&word.bits),
    }
}

/// Holds where the row of the end stands: with these entry bits, and with what is given.
pub fn exit_stands<'x>(
    net: &mut Net,
    bits: &'x [Gate],
    given: &'x Given,
    rows: &[Row],
) -> Result<Gate, OutOfMemory>
    requires bits { top bits.now ≤ length net.old }
    requires outcome { IsOutcomeBelow net.old given.now.outcome }
    requires kind { IsKindBelow net.old given.now.kind }
    ensures grown { Grown net.old net.new }
    ensures ok { IfOk result (λ r. ExitStands net.new bits.now given.now rows.now r.at) }
{
    let from = Side::Named(State::Nil);
    let to = kind_side(given);
    let sought = sought_row(bits, from, given.outcome, to);
    let r = has_row(net, &sought, rows)?;
    Ok(r)
}
