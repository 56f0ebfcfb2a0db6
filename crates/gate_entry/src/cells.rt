//! The cells of locations at entry.

ghost use Rattle.std.specs.Prelude.{◌≡◌, ◌≤◌, length, IfOk};
ghost use Rattle.bit_net.specs.Circuit.{input_count};
ghost use Rattle.bit_net.specs.Runs.{Grown};
ghost use Rattle.run_store.specs.Concrete.{width_kind};
ghost use Rattle.sc_world.specs.World.{kind_of_type};
ghost use Rattle.layout_base.specs.Seen as laid;
ghost use Rattle.run_world.specs.Seen as seen;
ghost use Rattle.gate_entry.specs.Entry.{IsCell, IsChosen, IsPointer};

use crate::bits::{chosen_bit, chosen_number};
use bit_net::{Net, OutOfMemory};
use gl_sets::{Set, join};
use gl_store::{Val, blank};
use layout_base::{Kind, Location};
use run_entry::integer_bits;
use run_world::Here;
use sc_gather::{is_integer, is_pointer};

// The width of a pointer's cell.
const POINTER: u32 = 255;

// The width of the cell of a location, as stores have it.
fn cell_width(here: &Here, of: Kind) -> u32
    ensures { width_kind result ≡ kind_of_type (seen.env here.now).source (laid.type_of of.entry) }
{
    match of {
        Kind::Stub | Kind::Void => 0,
        Kind::Of(t) => {
            if is_pointer(t) {
                POINTER
            } else if is_integer(t) {
                integer_bits(here, t)
            } else {
                0
            }
        }
    }
}

// The pointer that the bit of a cell gives: to its own target where the bit is set, else null.
#[tactic(auto, using(crate::proofs::Filling::pointer_null))]
fn chosen_pointer(here: &Here, net: &mut Net, at: u32, own: Option<u32>) -> Result<Set, OutOfMemory>
    requires inputs { (seen.env here.now).layout.bits ≤ input_count net.old }
    ensures grown { Grown net.old net.new }
    ensures ok { IfOk result (λ r. IsPointer (seen.env here.now).layout net.new at own r.pairs.items) }
{
    let null = Set::one(net, 0);
    match own {
        None => Ok(null),
        Some(own) => {
            let Some(target) = own.checked_add(1) else {
                return Err(OutOfMemory);
            };
            let there = Set::one(net, target);
            let bit = chosen_bit(here, net, at as usize);
            let made = join(net, bit, &there, &null)?;
            Ok(made)
        }
    }
}

// The cell that the bits from that one on give, as a location of that kind has it.
#[tactic(auto, using(crate::proofs::Filling::kind_laws, crate::proofs::Filling::chosen_laws))]
fn chosen_cell(
    here: &Here,
    net: &mut Net,
    of: Kind,
    at: u32,
    own: Option<u32>,
) -> Result<Val, OutOfMemory>
    requires inputs { (seen.env here.now).layout.bits ≤ input_count net.old }
    ensures grown { Grown net.old net.new }
    ensures ok { IfOk result (λ r. IsChosen (seen.env here.now).layout net.new
        (kind_of_type (seen.env here.now).source (laid.type_of of.entry)) at own r) }
{
    match of {
        Kind::Stub | Kind::Void => Ok(Val::Unit),
        Kind::Of(t) => {
            if is_pointer(t) {
                let pointer = chosen_pointer(here, net, at, own)?;
                Ok(Val::Set(pointer))
            } else if is_integer(t) {
                let word = chosen_number(here, net, at, integer_bits(here, t))?;
                Ok(Val::Word(word))
            } else {
                Ok(Val::Unit)
            }
        }
    }
}

/// The cell of a location at entry: 0 or null where the choice gives none.
#[tactic(auto, using(crate::proofs::Filling::cell_laws))]
pub fn entry_cell(here: &Here, net: &mut Net, location: &Location) -> Result<Val, OutOfMemory>
    requires inputs { (seen.env here.now).layout.bits ≤ input_count net.old }
    ensures grown { Grown net.old net.new }
    ensures ok { IfOk result (λ r. IsCell (seen.env here.now).source (seen.env here.now).layout
        net.new (laid.location_of location.now) r) }
{
    match location.bit {
        None => {
            let val = blank(net, cell_width(here, location.kind))?;
            Ok(val)
        }
        Some(at) => {
            let val = chosen_cell(here, net, location.kind, at, location.target)?;
            Ok(val)
        }
    }
}
