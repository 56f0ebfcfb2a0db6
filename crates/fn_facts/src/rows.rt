//! Rows of locations.

ghost use Rattle.std.specs.Prelude.{◌≡◌, ◌&&◌, ◌≤◌, nat_eq, length, IfOk};
ghost use Rattle.bit_net.specs.Runs.{Grown};
ghost use Rattle.sum_rows.specs.declared.row.State.TheVariants as names;
ghost use Rattle.sum_rows.specs.declared.row.Gives.TheVariants as gifts;
ghost use Rattle.sc_world.specs.Known as known;
ghost use Rattle.sc_world.specs.Shows as spec;
ghost use Rattle.fn_facts.specs.Seen as seen;
ghost use Rattle.fn_facts.specs.Showing.{IsReady, IsTruth, Shows, ShowsAtExit, ShowsNumber};

use crate::around::Around;
use crate::ends::errs_at;
use crate::entry::is_met;
use crate::joining::{at_exit, both, either};
use crate::numbers::{is_state, number_is, state_before, state_now};
use crate::results::gives;
use bit_net::{Gate, Net, OutOfMemory};
use sum_rows::{Gives, Row, State};

/// Holds where a row of a location begins so: with these entry bits and from this state, no pointer on the path of the location being
/// null. What the row gives, and its state afterwards, are not read.
pub fn begins(
    around: &Around,
    net: &mut Net,
    given: &[Gate],
    at: u32,
    row: Row,
) -> Result<Gate, OutOfMemory>
    requires ready { IsReady around.now net.old }
    requires given { ShowsNumber around.now net.old seen.given given.now }
    ensures grown { Grown net.old net.new }
    ensures ok { IfOk result (λ r. Shows around.now net.new (λ o. seen.begins o at row) r.at) }
{
    let before = state_before(around, net, at)?;
    let from = is_state(net, before.bits.as_slice(), row.before)?;
    let entered = number_is(net, given, row.given)?;
    let met = is_met(around, net, at)?;
    let entry = net.and(entered, from)?;
    let begins = net.and(met, entry)?;
    Ok(begins)
}

/// Holds where the run comes to the function's end, and a row of a location ends so: with what it gives, and with this state. What the row
/// begins with is not read. `truth` holds where what the function gives is neither 0 nor null.
pub fn ends_so(
    around: &Around,
    net: &mut Net,
    truth: Gate,
    at: u32,
    row: Row,
) -> Result<Gate, OutOfMemory>
    requires ready { IsReady around.now net.old }
    requires truth { IsTruth net.old around.now.encoded.now.result truth.at }
    ensures grown { Grown net.old net.new }
    ensures ok { IfOk result (λ r. Shows around.now net.new (λ o. spec.exits o && seen.ends_so o at row) r.at) }
{
    let gives = gives(around, net, truth, row.result)?;
    let to = is_state(net, state_now(around, net, at), row.after)?;
    let change = net.and(gives, to)?;
    let ends = at_exit(around, net, change)?;
    Ok(ends)
}

// Whether a row ends by an error.
#[tactic(auto, unfolding(crate::specs::Seen::is_bad_row))]
fn is_bad(row: Row) -> bool
    ensures { result ≡ seen.is_bad_row row }
{
    match (row.result, row.after) {
        (Gives::Nothing, State::Bad) => true,
        _ => false,
    }
}

// Holds where a run that ends by an error at the location has a row that ends so.
fn errs_so(around: &Around, net: &Net, at: u32, row: Row) -> Gate
    requires ready { IsReady around.now net.now }
    ensures { Shows around.now net.now (λ o. spec.errs_at o.ended at && seen.is_bad_row row) result.at }
{
    if is_bad(row) {
        errs_at(around, net, at)
    } else {
        net.constant(false)
    }
}

/// Holds where the run has that row of a location. `begins` holds where the row begins so, and `ends` where it ends so.
pub fn has_lock_row(
    around: &Around,
    net: &mut Net,
    begins: Gate,
    ends: Gate,
    at: u32,
    row: Row,
) -> Result<Gate, OutOfMemory>
    requires ready { IsReady around.now net.old }
    requires begins { Shows around.now net.old (λ o. seen.begins o at row) begins.at }
    requires ends { Shows around.now net.old (λ o. spec.exits o && seen.ends_so o at row) ends.at }
    ensures grown { Grown net.old net.new }
    ensures ok { IfOk result (λ r. Shows around.now net.new (λ o. spec.has_lock_row o at row) r.at) }
{
    let error = errs_so(around, net, at, row);
    let over = net.or(ends, error)?;
    let has = net.and(begins, over)?;
    Ok(has)
}
