// The rows of pointers that parameters point to.

ghost use Rattle.std.specs.Prelude.{◌≡◌, ◌≤◌, length, IfOk};
ghost use Rattle.bit_net.specs.Circuit.{input_count};
ghost use Rattle.bit_net.specs.Runs.{Grown};
ghost use Rattle.bit_words.specs.Number.{top};
ghost use Rattle.gl_sets.specs.Guards.{guards_top};
ghost use Rattle.run_world.specs.Seen as seen;
ghost use Rattle.gate_paths.specs.Gathered.{AreItemsBelow};
ghost use Rattle.gate_rows.specs.Sought.{IsOutcomeBelow};
ghost use Rattle.gate_stands.specs.Items.{IsOutRow, OutStands, OutsStand};

use crate::sought::sought_row;
use bit_net::{Gate, Net, OutOfMemory};
use gate_entry::chosen_number;
use gate_paths::Found;
use gate_rows::{Outcome, Side, has_row};
use gl_sets::points;
use run_world::Here;
use sum_rows::{Row, State};

// Holds where the row stands that leads to what the bits say of a pointer.
fn out_row<'x>(
    net: &mut Net,
    given: &'x [Gate],
    outcome: Outcome,
    after: &'x [Gate],
    rows: &[Row],
) -> Result<Gate, OutOfMemory>
    requires given { top given.now ≤ length net.old }
    requires outcome { IsOutcomeBelow net.old outcome }
    requires after { top after.now ≤ length net.old }
    ensures grown { Grown net.old net.new }
    ensures ok { IfOk result (λ r. IsOutRow net.new given.now outcome after.now rows.now r.at) }
{
    let from = Side::Named(State::Nil);
    let to = Side::Out(after);
    let sought = sought_row(given, from, outcome, to);
    let r = has_row(net, &sought, rows)?;
    Ok(r)
}

// Holds where the row of a pointer stands that the choice needs, and where the pointer is missing.
fn out_stands(
    here: &Here,
    net: &mut Net,
    given: &[Gate],
    outcome: Outcome,
    out: &Found,
) -> Result<Gate, OutOfMemory>
    requires inputs { (seen.env here.now).layout.bits ≤ input_count net.old }
    requires given { top given.now ≤ length net.old }
    requires outcome { IsOutcomeBelow net.old outcome }
    requires out { guards_top out.now.at.pairs.items ≤ length net.old }
    ensures grown { Grown net.old net.new }
    ensures ok { IfOk result (λ r. OutStands (seen.env here.now).source (seen.env here.now).layout net.new
        given.now outcome out.now r.at) }
{
    let after = chosen_number(here, net, out.spot.bit, 2)?;
    let row = out_row(net, given, outcome, &after.bits, out.rows)?;
    let r = net.or(points(net, &out.at, 0), row)?;
    Ok(r)
}

/// Holds where the row of each pointer stands that the choice needs, but for those that are missing.
pub fn outs_stand(
    here: &Here,
    net: &mut Net,
    given: &[Gate],
    outcome: Outcome,
    outs: &[Found],
) -> Result<Gate, OutOfMemory>
    requires inputs { (seen.env here.now).layout.bits ≤ input_count net.old }
    requires given { top given.now ≤ length net.old }
    requires outcome { IsOutcomeBelow net.old outcome }
    requires outs { AreItemsBelow net.old outs.now }
    ensures grown { Grown net.old net.new }
    ensures ok { IfOk result (λ r. OutsStand (seen.env here.now).source (seen.env here.now).layout net.new
        given.now outcome outs.now r.at) }
{
    let mut all = net.constant(true);
    for out in outs {
        let one = out_stands(here, net, given, outcome, out)?;
        let more = net.and(all, one)?;
        all = more;
    }
    Ok(all)
}
