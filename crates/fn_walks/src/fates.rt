//! What became of objects and pointers.

ghost use Rattle.std.specs.Prelude.{◌≡◌, ◌&&◌, ◌≤◌, not, length, IfOk};
ghost use Rattle.bit_net.specs.Runs.{Grown};
ghost use Rattle.gl_sets.specs.Guards.{guards_top};
ghost use Rattle.gl_store.specs.Meets.{val_top};
ghost use Rattle.sc_world.specs.Known as known;
ghost use Rattle.sc_world.specs.Shows as spec;
ghost use Rattle.run_world.specs.Seen.{env};
ghost use Rattle.walk_laws.specs.Objects.{HasObjects};
ghost use Rattle.fn_facts.specs.Showing.{IsReady, ShowsAtExit};
ghost use Rattle.fn_walks.specs.Seen as seen;
ghost use Rattle.fn_walks.specs.Walks.{AreTests, IsWalk, ShowsOf, ShowsSet};

use crate::objects::{is_known, root_at};
use crate::roots::{Beside, From};
use crate::walking::{Walk, reaches};
use bit_net::{Gate, Net, OutOfMemory};
use fn_facts::{Around, has, is_true};
use gl_sets::{Pair, Set, is_never, where_target};
use gl_store::Val;
use run_store::Flag;
use sum_rows::State;

/// From where walks tell whether an object is escaped: beside its own cells, but for an object that holds nothing while it is not escaped.
pub fn escape_from(around: &Around, object: u32) -> From
    ensures { result ≡ seen.escape_from (env around.now.here).layout object }
{
    if is_known(around, object) {
        return From {
            result: true,
            beside: Beside::Object(object),
        };
    }
    From {
        result: true,
        beside: Beside::Nothing,
    }
}

/// Holds where others may know an object: it is marked, or walks lead to it.
pub fn is_escaped(
    around: &Around,
    net: &mut Net,
    walk: &Walk,
    object: u32,
) -> Result<Gate, OutOfMemory>
    requires ready { IsReady around.now net.old }
    requires objects { HasObjects (env around.now.here).layout }
    requires walk { IsWalk around.now net.old walk.now }
    requires from { walk.now.from ≡ seen.escape_from (env around.now.here).layout object }
    ensures grown { Grown net.old net.new }
    ensures ok { IfOk result (λ r. ShowsAtExit around.now net.new (λ o. seen.is_escaped o object) r.at) }
{
    let there = reaches(around, net, walk, object)?;
    let marked = has(around, net, Flag::Escaped, object);
    let escaped = net.or(marked, there)?;
    Ok(escaped)
}

// Holds where a call gave the object, which is neither freed nor marked as escaped.
fn is_own_at(around: &Around, net: &mut Net, at: u32) -> Result<Gate, OutOfMemory>
    requires ready { IsReady around.now net.old }
    ensures grown { Grown net.old net.new }
    ensures ok { IfOk result (λ r. ShowsAtExit around.now net.new (λ o. seen.is_own_object o at) r.at) }
{
    if root_at(around, at) != at {
        return Ok(net.constant(false));
    }
    let freed = has(around, net, Flag::Freed, at);
    let escaped = has(around, net, Flag::Escaped, at);
    let gone = net.or(freed, escaped)?;
    let kept = net.not(gone)?;
    let allocated = has(around, net, Flag::Allocated, at);
    let own = net.and(allocated, kept)?;
    Ok(own)
}

// Holds where a call gave the object, which is neither freed nor marked as escaped, and no walk leads to it.
fn is_fresh_at(around: &Around, net: &mut Net, walk: &Walk, at: u32) -> Result<Gate, OutOfMemory>
    requires ready { IsReady around.now net.old }
    requires objects { HasObjects (env around.now.here).layout }
    requires walk { IsWalk around.now net.old walk.now }
    ensures grown { Grown net.old net.new }
    ensures ok { IfOk result (λ r. ShowsAtExit around.now net.new (λ o. seen.is_own_object o at && not (seen.is_reached o walk.now.from at)) r.at) }
{
    let own = is_own_at(around, net, at)?;
    if is_never(net, own) {
        return Ok(own);
    }
    let there = reaches(around, net, walk, at)?;
    let alone = net.not(there)?;
    let fresh = net.and(own, alone)?;
    Ok(fresh)
}

// The same of a target, null being 0.
fn is_fresh_target(
    around: &Around,
    net: &mut Net,
    walk: &Walk,
    target: u32,
) -> Result<Gate, OutOfMemory>
    requires ready { IsReady around.now net.old }
    requires objects { HasObjects (env around.now.here).layout }
    requires walk { IsWalk around.now net.old walk.now }
    ensures grown { Grown net.old net.new }
    ensures ok { IfOk result (λ r. ShowsAtExit around.now net.new (λ o. seen.is_fresh_at o walk.now.from target) r.at) }
{
    if target == 0 {
        return Ok(net.constant(false));
    }
    let fresh = is_fresh_at(around, net, walk, target - 1)?;
    Ok(fresh)
}

// For each pair a gate that holds where its target is fresh.
fn fresh_tests(
    around: &Around,
    net: &mut Net,
    walk: &Walk,
    pairs: &[Pair],
) -> Result<Vec<Gate>, OutOfMemory>
    requires ready { IsReady around.now net.old }
    requires objects { HasObjects (env around.now.here).layout }
    requires walk { IsWalk around.now net.old walk.now }
    ensures grown { Grown net.old net.new }
    ensures ok { IfOk result (λ r. AreTests around.now net.new (λ o t. seen.is_fresh_at o walk.now.from t) pairs.now r.items) }
{
    let mut tests = Vec::new(net.alloc());
    for i in 0..pairs.len() {
        let test = is_fresh_target(around, net, walk, pairs[i].target)?;
        tests.push(test)?;
    }
    Ok(tests)
}

// Holds where the pointer leads to a fresh object.
fn is_fresh_set(around: &Around, net: &mut Net, walk: &Walk, set: &Set) -> Result<Gate, OutOfMemory>
    requires ready { IsReady around.now net.old }
    requires objects { HasObjects (env around.now.here).layout }
    requires walk { IsWalk around.now net.old walk.now }
    requires set { guards_top set.now.pairs.items ≤ length net.old }
    ensures grown { Grown net.old net.new }
    ensures ok { IfOk result (λ r. ShowsSet around.now net.new set.now.pairs.items (λ o t. seen.is_fresh_at o walk.now.from t) r.at) }
{
    let tests = fresh_tests(around, net, walk, set.pairs.as_slice())?;
    let fresh = where_target(net, set, tests.as_slice())?;
    Ok(fresh)
}

// Holds where a value is a pointer to a fresh object.

fn is_fresh(around: &Around, net: &mut Net, walk: &Walk, val: &Val) -> Result<Gate, OutOfMemory>
    requires ready { IsReady around.now net.old }
    requires objects { HasObjects (env around.now.here).layout }
    requires walk { IsWalk around.now net.old walk.now }
    requires val { val_top val.now ≤ length net.old }
    ensures grown { Grown net.old net.new }
    ensures ok { IfOk result (λ r. ShowsOf around.now net.new val.now (λ o c. seen.is_fresh o walk.now.from c) r.at) }
{
    match val {
        Val::Word(_) => Ok(net.constant(false)),
        Val::Unit => Ok(net.constant(false)),
        Val::Set(set) => {
            let fresh = is_fresh_set(around, net, walk, set)?;
            Ok(fresh)
        }
    }
}

/// Holds where a pointer is of that kind.

pub fn kind_is(
    around: &Around,
    net: &mut Net,
    walk: &Walk,
    val: &Val,
    wanted: State,
) -> Result<Gate, OutOfMemory>
    requires ready { IsReady around.now net.old }
    requires objects { HasObjects (env around.now.here).layout }
    requires walk { IsWalk around.now net.old walk.now }
    requires val { val_top val.now ≤ length net.old }
    ensures grown { Grown net.old net.new }
    ensures ok { IfOk result (λ r. ShowsOf around.now net.new val.now (λ o c. known.same_state wanted (seen.kind o walk.now.from c)) r.at) }
{
    let some = is_true(net, val)?;
    match wanted {
        State::Null => {
            let null = net.not(some)?;
            Ok(null)
        }
        State::Fresh => {
            let fresh = is_fresh(around, net, walk, val)?;
            let is = net.and(some, fresh)?;
            Ok(is)
        }
        State::Other => {
            let fresh = is_fresh(around, net, walk, val)?;
            let other = net.not(fresh)?;
            let is = net.and(some, other)?;
            Ok(is)
        }
        State::Nil
        | State::At(_)
        | State::Bad
        | State::Held
        | State::Escaped
        | State::Freed
        | State::Same => Ok(net.constant(false)),
    }
}

/// Holds where this became of an object that the caller gave.

pub fn fate_is(
    around: &Around,
    net: &mut Net,
    walk: &Walk,
    at: u32,
    wanted: State,
) -> Result<Gate, OutOfMemory>
    requires ready { IsReady around.now net.old }
    requires objects { HasObjects (env around.now.here).layout }
    requires walk { IsWalk around.now net.old walk.now }
    requires from { walk.now.from ≡ seen.escape_from (env around.now.here).layout at }
    ensures grown { Grown net.old net.new }
    ensures ok { IfOk result (λ r. ShowsAtExit around.now net.new (λ o. known.same_state wanted (seen.fate o at)) r.at) }
{
    let freed = has(around, net, Flag::Freed, at);
    let kept = net.not(freed)?;
    match wanted {
        State::Freed => Ok(freed),
        State::Escaped => {
            let escaped = is_escaped(around, net, walk, at)?;
            let is = net.and(kept, escaped)?;
            Ok(is)
        }
        State::Held => {
            let escaped = is_escaped(around, net, walk, at)?;
            let held = net.not(escaped)?;
            let is = net.and(kept, held)?;
            Ok(is)
        }
        State::Nil
        | State::At(_)
        | State::Bad
        | State::Null
        | State::Fresh
        | State::Other
        | State::Same => Ok(net.constant(false)),
    }
}
