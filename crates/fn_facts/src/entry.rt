//! What the choice gave at entry.

ghost use Rattle.std.specs.Prelude.{◌≡◌, true, false, Some, IfOk};
ghost use Rattle.bit_net.specs.Runs.{Grown};
ghost use Rattle.sc_world.specs.Layout as layouts;
ghost use Rattle.sc_world.specs.Tree as tree;
ghost use Rattle.sc_world.specs.View.{type};
ghost use Rattle.layout_base.specs.Seen as laid;
ghost use Rattle.run_world.specs.Seen.{env};
ghost use Rattle.fn_facts.specs.Seen as seen;
ghost use Rattle.fn_facts.specs.Showing.{IsReady, Shows};

use crate::around::{Around, count, location_at, param_location};
use bit_net::{Gate, Net, OutOfMemory};
use gate_entry::{chosen_bit, chosen_is};
use layout_base::Kind;
use run_entry::integer_bits;
use sc_gather::{is_integer, is_pointer};
use sc_tree::ctype::CType;
use sc_world::Origin;

// Holds where the bit of a pointer is set that leads somewhere then.
fn leads_at_entry(around: &Around, net: &Net, t: &CType, bit: u32, own: Option<u32>) -> Gate
    requires ready { IsReady around.now net.now }
    requires pointer { tree.is_pointer (type t.now) ≡ true }
    ensures { Shows around.now net.now (λ o. seen.is_chosen o (Some (type t.now)) bit own) result.at }
{
    match own {
        None => net.constant(false),
        Some(_) => chosen_bit(&around.here, net, bit as usize),
    }
}

// Holds where the bits of an integer do not spell 0.
fn is_not_zero(
    around: &Around,
    net: &mut Net,
    t: &CType,
    bit: u32,
    own: Option<u32>,
) -> Result<Gate, OutOfMemory>
    requires ready { IsReady around.now net.old }
    requires pointer { tree.is_pointer (type t.now) ≡ false }
    requires integer { tree.is_integer (type t.now) ≡ true }
    ensures grown { Grown net.old net.new }
    ensures ok { IfOk result (λ r. Shows around.now net.new (λ o. seen.is_chosen o (Some (type t.now)) bit own) r.at) }
{
    let zero = chosen_is(&around.here, net, bit, integer_bits(&around.here, t), 0)?;
    let some = net.not(zero)?;
    Ok(some)
}

// Holds where the bits from that one on spell neither 0 nor null, of a value of that type.
fn is_chosen(
    around: &Around,
    net: &mut Net,
    t: &CType,
    bit: u32,
    own: Option<u32>,
) -> Result<Gate, OutOfMemory>
    requires ready { IsReady around.now net.old }
    ensures grown { Grown net.old net.new }
    ensures ok { IfOk result (λ r. Shows around.now net.new (λ o. seen.is_chosen o (Some (type t.now)) bit own) r.at) }
{
    if is_pointer(t) {
        return Ok(leads_at_entry(around, net, t, bit, own));
    }
    if is_integer(t) {
        return is_not_zero(around, net, t, bit, own);
    }
    Ok(net.constant(false))
}

// The same of a location of that kind.
fn is_chosen_at(
    around: &Around,
    net: &mut Net,
    of: Kind,
    bit: u32,
    own: Option<u32>,
) -> Result<Gate, OutOfMemory>
    requires ready { IsReady around.now net.old }
    ensures grown { Grown net.old net.new }
    ensures ok { IfOk result (λ r. Shows around.now net.new (λ o. seen.is_chosen o (laid.type_of of.entry) bit own) r.at) }
{
    let never = net.constant(false);
    match of {
        Kind::Stub => Ok(never),
        Kind::Void => Ok(never),
        Kind::Of(t) => {
            let chosen = is_chosen(around, net, t, bit, own)?;
            Ok(chosen)
        }
    }
}

// Holds where the cell of a location was neither 0 nor null.
fn was_true(around: &Around, net: &mut Net, at: u32) -> Result<Gate, OutOfMemory>
    requires ready { IsReady around.now net.old }
    ensures grown { Grown net.old net.new }
    ensures ok { IfOk result (λ r. Shows around.now net.new (λ o. seen.was_true o at) r.at) }
{
    let location = location_at(around, at);
    match location.bit {
        None => Ok(net.constant(false)),
        Some(bit) => {
            let chosen = is_chosen_at(around, net, location.kind, bit, location.target)?;
            Ok(chosen)
        }
    }
}

/// Holds where a parameter was neither 0 nor null.
pub fn is_given(around: &Around, net: &mut Net, n: u32) -> Result<Gate, OutOfMemory>
    requires ready { IsReady around.now net.old }
    ensures grown { Grown net.old net.new }
    ensures ok { IfOk result (λ r. Shows around.now net.new (λ o. seen.is_given o n) r.at) }
{
    let given = was_true(around, net, param_location(around, n))?;
    Ok(given)
}

/// From where a location is reached.
#[derive(Clone, Copy, Debug, PartialEq, Eq)]
enum Above {
    /// From the pointer in a cell.
    Cell(u32),
    /// It is a part of a location.
    Whole(u32),
    /// It is reached from no other one.
    Nothing,
}

fn reached_from(around: &Around, at: u32) -> Above
    ensures { result ≡ seen.reached_from (layouts.location (env around.now.here).layout at).origin }
{
    match location_at(around, at).origin {
        Origin::Target(cell) => Above::Cell(cell),
        Origin::Part(whole, _) => Above::Whole(whole),
        Origin::Param(_)
        | Origin::Global(_)
        | Origin::Local(_)
        | Origin::Literal(_)
        | Origin::Function(_)
        | Origin::Call(_) => Above::Nothing,
    }
}

// Holds where no pointer on the path of a location was null, upward over so many locations at most.
fn met_by(around: &Around, net: &mut Net, most: usize, at: u32) -> Result<Gate, OutOfMemory>
    requires ready { IsReady around.now net.old }
    ensures grown { Grown net.old net.new }
    ensures ok { IfOk result (λ r. Shows around.now net.new (λ o. seen.met_by o most at) r.at) }
{
    if most == 0 {
        return Ok(net.constant(true));
    }
    match reached_from(around, at) {
        Above::Nothing => Ok(net.constant(true)),
        Above::Whole(whole) => {
            let met = met_by(around, net, most - 1, whole)?;
            Ok(met)
        }
        Above::Cell(cell) => {
            let before = met_by(around, net, most - 1, cell)?;
            let here = was_true(around, net, cell)?;
            let met = net.and(here, before)?;
            Ok(met)
        }
    }
}

/// Holds where no pointer on the path of a location was null.
pub fn is_met(around: &Around, net: &mut Net, at: u32) -> Result<Gate, OutOfMemory>
    requires ready { IsReady around.now net.old }
    ensures grown { Grown net.old net.new }
    ensures ok { IfOk result (λ r. Shows around.now net.new (λ o. seen.is_met o at) r.at) }
{
    let met = met_by(around, net, count(around), at)?;
    Ok(met)
}
