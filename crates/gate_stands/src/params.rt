// The rows of parameters.

ghost use Rattle.std.specs.Prelude.{◌≡◌, ◌<◌, ◌≤◌, ◌^◌, length, IfOk};
ghost use Rattle.bit_net.specs.Circuit.{input_count};
ghost use Rattle.bit_net.specs.Runs.{Grown};
ghost use Rattle.bit_words.specs.Number.{top};
ghost use Rattle.run_world.specs.Seen as seen;
ghost use Rattle.gate_objects.specs.Escapes.{AreBelow};
ghost use Rattle.gate_rows.specs.Sought.{IsOutcomeBelow};
ghost use Rattle.gate_stands.specs.Params.{IsNoArgument, IsParamRow, ParamRowStands, ParamStands, ParamsStand};

use crate::sought::sought_row;
use bit_net::{Gate, Net, OutOfMemory};
use gate_entry::chosen_number;
use gate_rows::{Outcome, Side, has_row};
use gate_values::truth;
use gl_store::Val;
use run_paths::{Sort, is_of, spot_at, spot_behind};
use run_world::Here;
use sum_rows::{Item, ItemRows, Row, State};

// Holds where the argument with that number is 0 or null; past the end it always is.
#[tactic(auto, using(crate::proofs::Arguing::no_argument, crate::proofs::Arguing::argument_is))]
fn is_no_argument(net: &mut Net, args: &[Val], n: u32) -> Result<Gate, OutOfMemory>
    requires args { AreBelow net.old args.now }
    ensures grown { Grown net.old net.new }
    ensures ok { IfOk result (λ r. IsNoArgument net.new args.now n r.at) }
{
    match args.get(n as usize) {
        None => Ok(net.constant(true)),
        Some(val) => {
            let some = truth(net, val)?;
            let r = net.not(some)?;
            Ok(r)
        }
    }
}

// Holds where the row stands that leads to what the bits say of a parameter's object.
fn param_row<'x>(
    net: &mut Net,
    given: &'x [Gate],
    outcome: Outcome,
    after: &'x [Gate],
    rows: &[Row],
) -> Result<Gate, OutOfMemory>
    requires given { top given.now ≤ length net.old }
    requires outcome { IsOutcomeBelow net.old outcome }
    requires after { top after.now ≤ length net.old }
    ensures grown { Grown net.old net.new }
    ensures ok { IfOk result (λ r. IsParamRow net.new given.now outcome after.now rows.now r.at) }
{
    let from = Side::Named(State::Nil);
    let to = Side::Param(after);
    let sought = sought_row(given, from, outcome, to);
    let r = has_row(net, &sought, rows)?;
    Ok(r)
}

// Holds where the row of a parameter stands that the choice needs, which is said of it from that bit on.
fn param_row_stands(
    here: &Here,
    net: &mut Net,
    given: &[Gate],
    outcome: Outcome,
    bit: u32,
    rows: &[Row],
) -> Result<Gate, OutOfMemory>
    requires inputs { (seen.env here.now).layout.bits ≤ input_count net.old }
    requires given { top given.now ≤ length net.old }
    requires outcome { IsOutcomeBelow net.old outcome }
    ensures grown { Grown net.old net.new }
    ensures ok { IfOk result (λ r. ParamRowStands (seen.env here.now).layout net.new given.now outcome bit rows.now r.at) }
{
    let after = chosen_number(here, net, bit, 2)?;
    let r = param_row(net, given, outcome, &after.bits, rows)?;
    Ok(r)
}

// Holds where the row of a parameter stands that the choice needs, and where its argument is 0 or null. Other items stand.
#[tactic(auto, using(crate::proofs::Arguing::other_item))]
fn param_stands(
    here: &Here,
    net: &mut Net,
    args: &[Val],
    given: &[Gate],
    outcome: Outcome,
    spot: usize,
    x: &ItemRows,
) -> Result<Gate, OutOfMemory>
    requires inputs { (seen.env here.now).layout.bits ≤ input_count net.old }
    requires args { AreBelow net.old args.now }
    requires given { top given.now ≤ length net.old }
    requires outcome { IsOutcomeBelow net.old outcome }
    ensures grown { Grown net.old net.new }
    ensures ok { IfOk result (λ r. ParamStands (seen.env here.now).source (seen.env here.now).layout net.new
        args.now given.now outcome spot x.now r.at) }
{
    match &x.item {
        Item::Param(n) => {
            let none = is_no_argument(net, args, *n)?;
            let bit = spot_at(here.places, spot).bit;
            let row = param_row_stands(here, net, given, outcome, bit, x.rows.as_slice())?;
            let r = net.or(none, row)?;
            Ok(r)
        }
        Item::Exit | Item::Lock(_) | Item::Out(_) => Ok(net.constant(true)),
    }
}

/// Holds where the row of each parameter stands that the choice needs, but for those whose argument is 0 or null. The first of
/// them has that spot.
pub fn params_stand(
    here: &Here,
    net: &mut Net,
    args: &[Val],
    given: &[Gate],
    outcome: Outcome,
    spot: usize,
    items: &[ItemRows],
) -> Result<Gate, OutOfMemory>
    requires spot { spot < 2 ^ 62 }
    requires items { length items.now < 2 ^ 32 }
    requires inputs { (seen.env here.now).layout.bits ≤ input_count net.old }
    requires args { AreBelow net.old args.now }
    requires given { top given.now ≤ length net.old }
    requires outcome { IsOutcomeBelow net.old outcome }
    ensures grown { Grown net.old net.new }
    ensures ok { IfOk result (λ r. ParamsStand (seen.env here.now).source (seen.env here.now).layout net.new
        args.now given.now outcome spot items.now r.at) }
{
    let mut all = net.constant(true);
    let mut k = spot;
    for x in items {
        let one = param_stands(here, net, args, given, outcome, k, x)?;
        let more = net.and(all, one)?;
        all = more;
        k = spot_behind(is_of(Sort::Param, &x.item), k);
    }
    Ok(all)
}
