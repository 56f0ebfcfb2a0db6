//! Rows that tell what became of objects and pointers.

ghost use Rattle.std.specs.Prelude.{◌≡◌, ◌&&◌, ◌<◌, length, IfOk};
ghost use Rattle.bit_net.specs.Runs.{Grown};
ghost use Rattle.sc_world.specs.Known as known;
ghost use Rattle.sc_world.specs.Shows as spec;
ghost use Rattle.run_world.specs.Seen.{env};
ghost use Rattle.walk_laws.specs.Objects.{HasObjects};
ghost use Rattle.fn_facts.specs.Seen as facts;
ghost use Rattle.fn_facts.specs.Showing.{AreShared, Fact, IsReady, Shows, ShowsAtExit};
ghost use Rattle.fn_walks.specs.Seen as walks;
ghost use Rattle.fn_walks.specs.Walks.{IsWalk};
ghost use Rattle.fn_questions.specs.Seen as seen;

use crate::kinds::{is_nil, out_fate_is, result_kind_is};
use bit_net::{Gate, Net, OutOfMemory};
use fn_facts::{Around, Shared, at_exit, gives, has, is_given, number_is};
use fn_walks::{Walk, fate_is, is_escaped};
use run_store::Flag;
use sum_rows::Row;

/// A parameter, and the object or the cell that it points to.
#[derive(Clone, Copy, Debug, PartialEq, Eq)]
pub struct Pointed {
    pub number: u32,
    pub object: u32,
}

// Holds where a row with this end is one of the run: its entry bits and what it gives are those of the run, and the end is, where the gate
// holds.
fn row_with(
    around: &Around,
    net: &mut Net,
    shared: &Shared,
    row: Row,
    end: Gate,
) -> Result<Gate, OutOfMemory>
    requires ready { IsReady around.now net.old }
    requires shared { AreShared around.now net.old shared.now }
    requires end { end.at < length net.old }
    ensures grown { Grown net.old net.new }
    ensures below { IfOk result (λ r. r.at < length net.new) }
    ensures ok { (of : Fact) → ShowsAtExit around.now net.old of end.at
        → IfOk result (λ r. ShowsAtExit around.now net.new (λ o. seen.row_with row of o) r.at) }
{
    if !is_nil(row.before) {
        return Ok(net.constant(false));
    }
    let entered = number_is(net, shared.given.bits.as_slice(), row.given)?;
    let given_so = gives(around, net, shared.truth, row.result)?;
    let ends = net.and(given_so, end)?;
    let has = net.and(entered, ends)?;
    Ok(has)
}

/// Holds where the run has that row of its end.
pub fn has_exit_row(
    around: &Around,
    net: &mut Net,
    shared: &Shared,
    walk: &Walk,
    row: Row,
) -> Result<Gate, OutOfMemory>
    requires ready { IsReady around.now net.old }
    requires objects { HasObjects (env around.now.here).layout }
    requires shared { AreShared around.now net.old shared.now }
    requires walk { IsWalk around.now net.old walk.now }
    requires from { walk.now.from ≡ seen.result_from }
    ensures grown { Grown net.old net.new }
    ensures ok { IfOk result (λ r. Shows around.now net.new (λ o. spec.exits o && known.same_row row (spec.exit_row o)) r.at) }
{
    let kind = result_kind_is(around, net, walk, row.after)?;
    let end = row_with(around, net, shared, row, kind)?;
    let has = at_exit(around, net, end)?;
    Ok(has)
}

/// Holds where the run comes to the function's end, and an object that the caller gave is freed or escaped then.
pub fn has_changed(
    around: &Around,
    net: &mut Net,
    walk: &Walk,
    object: u32,
) -> Result<Gate, OutOfMemory>
    requires ready { IsReady around.now net.old }
    requires objects { HasObjects (env around.now.here).layout }
    requires walk { IsWalk around.now net.old walk.now }
    requires from { walk.now.from ≡ walks.escape_from (env around.now.here).layout object }
    ensures grown { Grown net.old net.new }
    ensures ok { IfOk result (λ r. Shows around.now net.new (λ o. spec.exits o && spec.is_fate (walks.fate o object)) r.at) }
{
    let escaped = is_escaped(around, net, walk, object)?;
    let freed = has(around, net, Flag::Freed, object);
    let fated = net.or(freed, escaped)?;
    let changed = at_exit(around, net, fated)?;
    Ok(changed)
}

// Holds where the run comes to the function's end with a row of its end, and a parameter was neither 0 nor null.
fn with_param(around: &Around, net: &mut Net, number: u32, row: Gate) -> Result<Gate, OutOfMemory>
    requires ready { IsReady around.now net.old }
    requires row { row.at < length net.old }
    ensures grown { Grown net.old net.new }
    ensures ok { (of : Fact) → ShowsAtExit around.now net.old of row.at
        → IfOk result (λ r. Shows around.now net.new (λ o. spec.exits o && (facts.is_given o number && of o)) r.at) }
{
    let there = is_given(around, net, number)?;
    let both = net.and(there, row)?;
    let ends = at_exit(around, net, both)?;
    Ok(ends)
}

/// Holds where the run comes to the function's end with that row of what a parameter points to.
pub fn has_param_row(
    around: &Around,
    net: &mut Net,
    shared: &Shared,
    walk: &Walk,
    param: Pointed,
    row: Row,
) -> Result<Gate, OutOfMemory>
    requires ready { IsReady around.now net.old }
    requires objects { HasObjects (env around.now.here).layout }
    requires shared { AreShared around.now net.old shared.now }
    requires walk { IsWalk around.now net.old walk.now }
    requires from { walk.now.from ≡ walks.escape_from (env around.now.here).layout param.object }
    ensures grown { Grown net.old net.new }
    ensures ok { IfOk result (λ r. Shows around.now net.new
        (λ o. spec.exits o && (facts.is_given o param.number && seen.row_with row (λ p. known.same_state row.after (walks.fate p param.object)) o)) r.at) }
{
    let fate = fate_is(around, net, walk, param.object, row.after)?;
    let end = row_with(around, net, shared, row, fate)?;
    let has = with_param(around, net, param.number, end)?;
    Ok(has)
}

/// Holds where the run comes to the function's end with that row of the pointer that a parameter points to.
pub fn has_out_row(
    around: &Around,
    net: &mut Net,
    shared: &Shared,
    walk: &Walk,
    param: Pointed,
    row: Row,
) -> Result<Gate, OutOfMemory>
    requires ready { IsReady around.now net.old }
    requires objects { HasObjects (env around.now.here).layout }
    requires shared { AreShared around.now net.old shared.now }
    requires walk { IsWalk around.now net.old walk.now }
    requires from { walk.now.from ≡ seen.cell_from param.object }
    ensures grown { Grown net.old net.new }
    ensures ok { IfOk result (λ r. Shows around.now net.new
        (λ o. spec.exits o && (facts.is_given o param.number && seen.row_with row (λ p. known.same_state row.after (seen.out_fate p param.object)) o)) r.at) }
{
    let fate = out_fate_is(around, net, walk, param.object, row.after)?;
    let end = row_with(around, net, shared, row, fate)?;
    let has = with_param(around, net, param.number, end)?;
    Ok(has)
}
