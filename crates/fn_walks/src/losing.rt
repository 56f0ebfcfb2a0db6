//! Objects that are lost.

ghost use Rattle.std.specs.Prelude.{◌≡◌, ◌&&◌, length, IfOk};
ghost use Rattle.bit_net.specs.Runs.{Grown};
ghost use Rattle.sc_world.specs.Layout as layouts;
ghost use Rattle.sc_world.specs.Paths as paths;
ghost use Rattle.sc_world.specs.Shows as spec;
ghost use Rattle.run_world.specs.Seen.{env};
ghost use Rattle.walk_laws.specs.Objects.{HasObjects};
ghost use Rattle.fn_facts.specs.Showing.{IsReady, Shows, ShowsAtExit};
ghost use Rattle.fn_walks.specs.Seen as seen;
ghost use Rattle.fn_walks.specs.Walks.{IsWalk};

use crate::fates::is_escaped;
use crate::roots::{Beside, From};
use crate::walking::Walk;
use bit_net::{Gate, Net, OutOfMemory};
use fn_facts::{Around, at_exit, count, has, location_at};
use location_texts::call_pos;
use run_store::Flag;
use sc_base::Pos;
use sc_world::Origin;

// Whether places are one.
fn same_pos(p: Pos, q: Pos) -> bool
    ensures { result ≡ layouts.same_pos p q }
{
    p.file == q.file && (p.line == q.line && p.col == q.col)
}

// The place of a call that gives an object.
#[tactic(auto, unfolding(run_world::specs::Seen::env))]
fn pos_of_call(around: &Around, occurrence: u32) -> Pos
    ensures { result ≡ (paths.site_of (env around.now.here).layout occurrence).pos }
{
    call_pos(around.here.places, occurrence)
}

// Whether a location is an object of a call at a place.
fn is_from(around: &Around, pos: Pos, at: u32) -> bool
    ensures { result ≡ seen.is_from (env around.now.here).layout pos at }
{
    match location_at(around, at).origin {
        Origin::Call(occurrence) => same_pos(pos, pos_of_call(around, occurrence)),
        Origin::Param(_)
        | Origin::Global(_)
        | Origin::Local(_)
        | Origin::Literal(_)
        | Origin::Function(_)
        | Origin::Target(_)
        | Origin::Part(_, _) => false,
    }
}

/// From where walks tell whether objects of calls are lost.
pub fn loss_from() -> From
    ensures { result ≡ seen.loss_from }
{
    From {
        result: true,
        beside: Beside::Nothing,
    }
}

// Holds where a location is an object of a call at a place, and lost: allocated, and neither freed nor escaped.
fn is_lost_from(
    around: &Around,
    net: &mut Net,
    walk: &Walk,
    pos: Pos,
    at: u32,
) -> Result<Gate, OutOfMemory>
    requires ready { IsReady around.now net.old }
    requires objects { HasObjects (env around.now.here).layout }
    requires walk { IsWalk around.now net.old walk.now }
    requires from { walk.now.from ≡ seen.loss_from }
    ensures grown { Grown net.old net.new }
    ensures ok { IfOk result (λ r. ShowsAtExit around.now net.new (λ o. seen.is_lost_from pos o at) r.at) }
{
    if !is_from(around, pos, at) {
        return Ok(net.constant(false));
    }
    let escaped = is_escaped(around, net, walk, at)?;
    let freed = has(around, net, Flag::Freed, at);
    let gone = net.or(freed, escaped)?;
    let left = net.not(gone)?;
    let allocated = has(around, net, Flag::Allocated, at);
    let lost = net.and(allocated, left)?;
    Ok(lost)
}

/// Holds where the run comes to the function's end, and an object of a call at the place is lost.
pub fn loses(around: &Around, net: &mut Net, walk: &Walk, pos: Pos) -> Result<Gate, OutOfMemory>
    requires ready { IsReady around.now net.old }
    requires objects { HasObjects (env around.now.here).layout }
    requires walk { IsWalk around.now net.old walk.now }
    requires from { walk.now.from ≡ seen.loss_from }
    ensures grown { Grown net.old net.new }
    ensures ok { IfOk result (λ r. Shows around.now net.new (λ o. spec.exits o && spec.loses o pos) r.at) }
{
    let mut some = net.constant(false);
    for k in 0..count(around) {
        let here = is_lost_from(around, net, walk, pos, k as u32)?;
        let more = net.or(some, here)?;
        some = more;
    }
    let loses = at_exit(around, net, some)?;
    Ok(loses)
}
