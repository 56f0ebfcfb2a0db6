//! Kinds of pointers at the function's end.

ghost use Rattle.std.specs.Prelude.{◌≡◌, ◌≤◌, not, length, IfOk};
ghost use Rattle.bit_net.specs.Runs.{Grown};
ghost use Rattle.gl_store.specs.Meets.{locations_top};
ghost use Rattle.sc_world.specs.Known as known;
ghost use Rattle.run_world.specs.Seen.{env};
ghost use Rattle.walk_laws.specs.Objects.{HasObjects};
ghost use Rattle.fn_facts.specs.Showing.{IsReady, ShowsAtExit};
ghost use Rattle.fn_walks.specs.Seen as walks;
ghost use Rattle.fn_walks.specs.Walks.{IsWalk, ShowsCell};
ghost use Rattle.fn_questions.specs.Seen as seen;

use bit_net::{Gate, Net, OutOfMemory};
use fn_facts::{Around, gives_pointer, has};
use fn_walks::{Beside, From, Walk, kind_is, root_at};
use gl_store::{Location, Val};
use run_store::Flag;
use sum_rows::State;

/// From where walks tell the kind of the result: beside all holders.
pub fn result_from() -> From
    ensures { result ≡ seen.result_from }
{
    From {
        result: false,
        beside: Beside::Nothing,
    }
}

/// From where walks tell the kind of the pointer in a cell: beside all other holders, and the result.
pub fn cell_from(at: u32) -> From
    ensures { result ≡ seen.cell_from at }
{
    From {
        result: true,
        beside: Beside::Cell(at),
    }
}

/// Whether it is the state of no item.
pub fn is_nil(state: State) -> bool
    ensures { result ≡ seen.is_nil state }
{
    match state {
        State::Nil => true,
        State::At(_)
        | State::Bad
        | State::Held
        | State::Escaped
        | State::Freed
        | State::Null
        | State::Fresh
        | State::Other
        | State::Same => false,
    }
}

/// Holds where the pointer that the function gives is of that kind; a function that gives none has no kind of it.
pub fn result_kind_is(
    around: &Around,
    net: &mut Net,
    walk: &Walk,
    wanted: State,
) -> Result<Gate, OutOfMemory>
    requires ready { IsReady around.now net.old }
    requires objects { HasObjects (env around.now.here).layout }
    requires walk { IsWalk around.now net.old walk.now }
    requires from { walk.now.from ≡ seen.result_from }
    ensures grown { Grown net.old net.new }
    ensures ok { IfOk result (λ r. ShowsAtExit around.now net.new (λ o. known.same_state wanted (seen.result_kind o)) r.at) }
{
    if gives_pointer(around) {
        let kind = kind_is(around, net, walk, &around.encoded.result, wanted)?;
        return Ok(kind);
    }
    Ok(net.constant(is_nil(wanted)))
}

// Holds where the pointer in the cell of a location is of that kind; past the end there is none.
fn stored_kind_is(
    around: &Around,
    net: &mut Net,
    walk: &Walk,
    stored: &[Location],
    at: usize,
    wanted: State,
) -> Result<Gate, OutOfMemory>
    requires ready { IsReady around.now net.old }
    requires objects { HasObjects (env around.now.here).layout }
    requires walk { IsWalk around.now net.old walk.now }
    requires stored { locations_top stored.now ≤ length net.old }
    ensures grown { Grown net.old net.new }
    ensures ok { IfOk result (λ r. ShowsCell around.now net.new stored.now at (λ o c. known.same_state wanted (walks.kind o walk.now.from c)) r.at) }
{
    if at < stored.len() {
        let kind = kind_is(around, net, walk, &stored[at].val, wanted)?;
        return Ok(kind);
    }
    let none = kind_is(around, net, walk, &Val::Unit, wanted)?;
    Ok(none)
}

/// Holds where the pointer in the cell of a location is of that kind.
pub fn cell_kind_is(
    around: &Around,
    net: &mut Net,
    walk: &Walk,
    at: u32,
    wanted: State,
) -> Result<Gate, OutOfMemory>
    requires ready { IsReady around.now net.old }
    requires objects { HasObjects (env around.now.here).layout }
    requires walk { IsWalk around.now net.old walk.now }
    requires from { walk.now.from ≡ seen.cell_from at }
    ensures grown { Grown net.old net.new }
    ensures ok { IfOk result (λ r. ShowsAtExit around.now net.new (λ o. known.same_state wanted (seen.kind_of_cell o at)) r.at) }
{
    let stored = around.encoded.store.locations.as_slice();
    let kind = stored_kind_is(around, net, walk, stored, at as usize, wanted)?;
    Ok(kind)
}

// Whether it is the state of a cell that was not written.
fn is_same(state: State) -> bool
    ensures { result ≡ seen.is_same state }
{
    match state {
        State::Same => true,
        State::Nil
        | State::At(_)
        | State::Bad
        | State::Held
        | State::Escaped
        | State::Freed
        | State::Null
        | State::Fresh
        | State::Other => false,
    }
}

// Holds where the run has set the pointer in a cell of an object that is not freed.
fn is_set(around: &Around, net: &mut Net, at: u32) -> Result<Gate, OutOfMemory>
    requires ready { IsReady around.now net.old }
    ensures grown { Grown net.old net.new }
    ensures ok { IfOk result (λ r. ShowsAtExit around.now net.new (λ o. seen.is_set o at) r.at) }
{
    let freed = has(around, net, Flag::Freed, root_at(around, at));
    let there = net.not(freed)?;
    let written = has(around, net, Flag::Written, at);
    let set = net.and(written, there)?;
    Ok(set)
}

// Holds where it has not.
fn is_kept(around: &Around, net: &mut Net, at: u32) -> Result<Gate, OutOfMemory>
    requires ready { IsReady around.now net.old }
    ensures grown { Grown net.old net.new }
    ensures ok { IfOk result (λ r. ShowsAtExit around.now net.new (λ o. not (seen.is_set o at)) r.at) }
{
    let set = is_set(around, net, at)?;
    let kept = net.not(set)?;
    Ok(kept)
}

/// Holds where this became of a pointer that the caller gave a pointer to.
pub fn out_fate_is(
    around: &Around,
    net: &mut Net,
    walk: &Walk,
    at: u32,
    wanted: State,
) -> Result<Gate, OutOfMemory>
    requires ready { IsReady around.now net.old }
    requires objects { HasObjects (env around.now.here).layout }
    requires walk { IsWalk around.now net.old walk.now }
    requires from { walk.now.from ≡ seen.cell_from at }
    ensures grown { Grown net.old net.new }
    ensures ok { IfOk result (λ r. ShowsAtExit around.now net.new (λ o. known.same_state wanted (seen.out_fate o at)) r.at) }
{
    if is_same(wanted) {
        let kept = is_kept(around, net, at)?;
        return Ok(kept);
    }
    let kind = cell_kind_is(around, net, walk, at, wanted)?;
    let set = is_set(around, net, at)?;
    let changed = net.and(set, kind)?;
    Ok(changed)
}
