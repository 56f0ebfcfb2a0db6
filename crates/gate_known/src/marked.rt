// The mark on what a known call gives.

ghost use Rattle.std.specs.Prelude.{◌<◌, ◌≤◌, length, OnOk};
ghost use Rattle.bit_net.specs.Runs.{Grown};
ghost use Rattle.bit_words.specs.Number.{top};
ghost use Rattle.gl_sets.specs.Guards.{guards_top};
ghost use Rattle.gl_store.specs.Meets.{locations_top, val_top};
ghost use Rattle.gate_runs.specs.Stands.{AreEnds};
ghost use Rattle.gate_rows.specs.Given.{IsKindBelow};
ghost use Rattle.gate_known.specs.Marked.{MarksGiven, MarksNamed};

use bit_net::{Gate, Net, OutOfMemory};
use bit_words::is_number;
use gate_acts::pointer_of;
use gate_rows::Given;
use gate_runs::Ends;
use gate_sets::mark_target;
use gl_sets::{Set, join};
use gl_store::{Flag, Store};

// The numbers by which the choice names a pointer that is not null.
const FRESH: u64 = 1;

const OTHER: u64 = 2;

// Marks what the pointer leads to where the bits spell the number and the run goes on.
fn mark_named(
    net: &mut Net,
    stored: &mut Store,
    ends: &Ends,
    kind: &[Gate],
    number: u64,
    flag: Flag,
    object: &Set,
) -> Result<(), OutOfMemory>
    requires store { locations_top stored.old.locations.items ≤ length net.old }
    requires ends { AreEnds net.old ends.now }
    requires kind { top kind.now ≤ length net.old }
    requires object { guards_top object.now.pairs.items ≤ length net.old }
    ensures grown { Grown net.old net.new }
    ensures ok { OnOk result (MarksNamed net.new ends.now kind.now number flag object.now.pairs.items
        stored.old.locations.items stored.new.locations.items) }
{
    let named = is_number(net, kind, number)?;
    let none = Set::one(net, 0);
    let marked = join(net, named, object, &none)?;
    mark_target(net, stored, ends, flag, &marked)?;
    Ok(())
}

/// Marks the object of what is given, where the run goes on: a fresh one is allocated, any other one may be known outside.
pub fn mark_given(
    net: &mut Net,
    stored: &mut Store,
    ends: &Ends,
    given: &Given,
) -> Result<(), OutOfMemory>
    requires store { locations_top stored.old.locations.items ≤ length net.old }
    requires ends { AreEnds net.old ends.now }
    requires val { val_top given.now.val ≤ length net.old }
    requires kind { IsKindBelow net.old given.now.kind }
    ensures grown { Grown net.old net.new }
    ensures ok { OnOk result (MarksGiven net.new ends.now given.now stored.old.locations.items stored.new.locations.items) }
{
    match &given.kind {
        None => Ok(()),
        Some(kind) => {
            let object = pointer_of(net, &given.val)?;
            mark_named(
                net,
                stored,
                ends,
                &kind.bits,
                FRESH,
                Flag::Allocated,
                &object,
            )?;
            mark_named(net, stored, ends, &kind.bits, OTHER, Flag::Escaped, &object)?;
            Ok(())
        }
    }
}
