//! The errors of the items of a known call.

ghost use Rattle.std.specs.Prelude.{◌≡◌, ◌<◌, ◌≤◌, length, IfOk, OnOk};
ghost use Rattle.bit_net.specs.Circuit.{input_count};
ghost use Rattle.bit_net.specs.Runs.{Gives as GateGives, Grown};
ghost use Rattle.bit_words.specs.Number.{number, top};
ghost use Rattle.gl_sets.specs.Guards.{guards_top};
ghost use Rattle.gl_store.specs.Meets.{locations_top};
ghost use Rattle.gate_runs.specs.Stands.{AreEnds};
ghost use Rattle.run_world.specs.Seen as seen;
ghost use Rattle.gate_paths.specs.Gathered.{where_item};
ghost use Rattle.gate_states.specs.Called.{IsCalled};
ghost use Rattle.gate_fails.specs.Errors as spec;
ghost use Rattle.gate_fails.specs.Errors.{DoesErr, DoesErrEach, ErrsTarget, IsErring, NeedsRow};

use crate::failing::fail_each;
use bit_net::{Gate, Net, OutOfMemory};
use bit_words::is_number;
use gate_entry::chosen_bit;
use gate_paths::Found;
use gate_rows::{Outcome, Side, Sought, has_row, numbers_name_states, rows_stand_as_defined};
use gate_runs::Ends;
use gate_states::{Called, state_before};
use gate_steps::unless;
use gl_sets::{Set, is_never, join, points, points_are_guards};
use gl_store::{Flag, Store};
use run_world::Here;
use sc_world::Reason;
use sum_rows::{Row, State};

// Any state.
const ANY: u64 = 15;

// Where an item errs: where it is, if its bit of the choice holds.
fn erring(here: &Here, net: &mut Net, bit: u32, at: &Set) -> Result<Set, OutOfMemory>
    requires inputs { (seen.env here.now).layout.bits ≤ input_count net.old }
    requires at { guards_top at.now.pairs.items ≤ length net.old }
    ensures grown { Grown net.old net.new }
    ensures ok { IfOk result (λ r. IsErring (seen.env here.now).layout net.new bit at.now.pairs.items r.pairs.items) }
{
    let chosen = chosen_bit(here, net, bit as usize);
    let null = Set::one(net, 0);
    let made = join(net, chosen, at, &null)?;
    Ok(made)
}

// Holds where an error has its row from the state that the bits spell; any state has none.
fn has_error<'a>(
    net: &mut Net,
    given: &'a [Gate],
    before: &'a [Gate],
    rows: &[Row],
) -> Result<Gate, OutOfMemory>
    requires given { top given.now ≤ length net.old }
    requires before { top before.now ≤ length net.old }
    ensures grown { Grown net.old net.new }
    ensures ok { IfOk result (λ r. GateGives net.new r.at
        (λ choice v. spec.has_error (number v given.now) (number v before.now) rows.now)) }
{
    numbers_name_states();
    rows_stand_as_defined();
    let any = is_number(net, before, ANY)?;
    let known = net.not(any)?;
    let sought = Sought {
        given,
        before: Side::Numbered(before),
        result: Outcome::Nothing,
        after: Side::Named(State::Bad),
    };
    let stands = has_row(net, &sought, rows)?;
    let r = net.and(known, stands)?;
    Ok(r)
}

// The run is set aside where an item errs and no row has the error.
fn need_row(
    net: &mut Net,
    ends: &mut Ends,
    erring: &Set,
    has_error: Gate,
) -> Result<(), OutOfMemory>
    requires ends { AreEnds net.old ends.old }
    requires erring { guards_top erring.now.pairs.items ≤ length net.old }
    requires has_error { has_error.at < length net.old }
    ensures grown { Grown net.old net.new }
    ensures ready { OnOk result (AreEnds net.new ends.new) }
    ensures locations { OnOk result (length ends.new.bads.items ≡ length ends.old.bads.items) }
    ensures ok { OnOk result (NeedsRow net.new erring.now.pairs.items has_error.at ends.old ends.new) }
{
    points_are_guards();
    let none = points(net, erring, 0);
    let fine = net.or(none, has_error)?;
    unless(net, ends, fine, Reason::NoRow)?;
    Ok(())
}

// The location to which the set points is touched and the run ends by an error there, or it is set aside where no row has the error; nothing
// for 0. Where no row ever has it, the run has no way to an error.
fn err_target(
    net: &mut Net,
    stored: &mut Store,
    ends: &mut Ends,
    erring: &Set,
    has_error: Gate,
) -> Result<(), OutOfMemory>
    requires store { locations_top stored.old.locations.items ≤ length net.old }
    requires ends { AreEnds net.old ends.old }
    requires erring { guards_top erring.now.pairs.items ≤ length net.old }
    requires has_error { has_error.at < length net.old }
    ensures grown { Grown net.old net.new }
    ensures ready { OnOk result (AreEnds net.new ends.new) }
    ensures locations { OnOk result (length ends.new.bads.items ≡ length ends.old.bads.items) }
    ensures ok { OnOk result (ErrsTarget net.new erring.now.pairs.items has_error.at
        stored.old.locations.items stored.new.locations.items ends.old ends.new) }
{
    need_row(net, ends, erring, has_error)?;
    if is_never(net, has_error) {
        return Ok(());
    }
    stored.mark_where(net, ends.live, erring, Flag::Touched)?;
    fail_each(net, ends, erring.pairs.as_slice())?;
    Ok(())
}

// The error of an item, where its bit of the choice holds and it is not missing.
fn err(
    here: &Here,
    net: &mut Net,
    stored: &mut Store,
    ends: &mut Ends,
    given: &[Gate],
    item: &Found,
) -> Result<(), OutOfMemory>
    requires inputs { (seen.env here.now).layout.bits ≤ input_count net.old }
    requires store { locations_top stored.old.locations.items ≤ length net.old }
    requires ends { AreEnds net.old ends.old }
    requires given { top given.now ≤ length net.old }
    requires item { guards_top (where_item item.now) ≤ length net.old }
    ensures grown { Grown net.old net.new }
    ensures ready { OnOk result (AreEnds net.new ends.new) }
    ensures locations { OnOk result (length ends.new.bads.items ≡ length ends.old.bads.items) }
    ensures ok { OnOk result (DoesErr (seen.env here.now).source (seen.env here.now).layout net.new given.now item.now
        stored.old.locations.items stored.new.locations.items ends.old ends.new) }
{
    let errs_at = erring(here, net, item.spot.bit, &item.at)?;
    let before = state_before(here, net, stored, &item.at)?;
    let in_rows = has_error(net, given, &before.bits, item.rows)?;
    err_target(net, stored, ends, &errs_at, in_rows)?;
    Ok(())
}

/// The errors of the items of a call, one after the other: where the bit of an item holds and its location is not missing, the location is
/// touched and the run ends by an error there, or it is set aside where no row has the error. No event has gates. After a refusal of memory
/// neither store nor gates of the run are to be used again.
pub fn errs_each(
    here: &Here,
    net: &mut Net,
    stored: &mut Store,
    ends: &mut Ends,
    called: &Called,
) -> Result<(), OutOfMemory>
    requires inputs { (seen.env here.now).layout.bits ≤ input_count net.old }
    requires store { locations_top stored.old.locations.items ≤ length net.old }
    requires ends { AreEnds net.old ends.old }
    requires called { IsCalled net.old called.now }
    ensures grown { Grown net.old net.new }
    ensures ready { OnOk result (AreEnds net.new ends.new) }
    ensures locations { OnOk result (length ends.new.bads.items ≡ length ends.old.bads.items) }
    ensures ok { OnOk result (DoesErrEach (seen.env here.now).source (seen.env here.now).layout net.new called.now
        stored.old.locations.items stored.new.locations.items ends.old ends.new) }
{
    for item in called.locks {
        err(here, net, stored, ends, called.given, item)?;
    }
    Ok(())
}
