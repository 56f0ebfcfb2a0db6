//! Whether all rows stand that a known call needs.

ghost use Rattle.std.specs.Prelude.{◌≡◌, ◌<◌, ◌≤◌, ◌^◌, length, IfOk};
ghost use Rattle.bit_net.specs.Circuit.{input_count};
ghost use Rattle.bit_net.specs.Runs.{Gives, Grown};
ghost use Rattle.gl_store.specs.Meets.{locations_top};
ghost use Rattle.run_world.specs.Seen as seen;
ghost use Rattle.gate_rows.specs.Given.{IsKindBelow};
ghost use Rattle.gate_rows.specs.Sought.{IsOutcomeBelow};
ghost use Rattle.gate_states.specs.Called.{IsCalled};
ghost use Rattle.gate_stands.specs.Standing.{ItemsStand, RowsStand};

use crate::exits::{exit_rows, exit_stands};
use crate::locks::locks_stand;
use crate::outs::outs_stand;
use crate::params::params_stand;
use bit_net::{Gate, Net, OutOfMemory};
use gate_rows::{Given, Outcome};
use gate_states::Called;
use gl_store::Store;
use run_paths::spots_of;
use run_world::Here;

// Holds where the rows of all items but the end stand.
fn items_stand(
    here: &Here,
    net: &mut Net,
    store: &Store,
    called: &Called,
    outcome: Outcome,
) -> Result<Gate, OutOfMemory>
    requires inputs { (seen.env here.now).layout.bits ≤ input_count net.old }
    requires store { locations_top store.now.locations.items ≤ length net.old }
    requires called { IsCalled net.old called.now }
    requires items { length called.now.summary.now.items < 2 ^ 32 }
    requires outcome { IsOutcomeBelow net.old outcome }
    ensures grown { Grown net.old net.new }
    ensures ok { IfOk result (λ r. ItemsStand (seen.env here.now).source (seen.env here.now).layout net.new
        called.now outcome store.now.locations.items r.at) }
{
    let items = called.summary.items.as_slice();
    let spot = spots_of(called.occurrence, items).params;
    let locks = locks_stand(here, net, store, called.given, outcome, called.locks)?;
    let params = params_stand(here, net, called.args, called.given, outcome, spot, items)?;
    let outs = outs_stand(here, net, called.given, outcome, called.outs)?;
    let rest = net.and(params, outs)?;
    let r = net.and(locks, rest)?;
    Ok(r)
}

/// Holds where all rows stand that a known call needs: that of the end with what is given, and those of its items. An item that is
/// missing needs none, nor does a parameter whose argument is 0 or null.
pub fn rows_stand(
    here: &Here,
    net: &mut Net,
    store: &Store,
    called: &Called,
    given: &Given,
) -> Result<Gate, OutOfMemory>
    requires inputs { (seen.env here.now).layout.bits ≤ input_count net.old }
    requires store { locations_top store.now.locations.items ≤ length net.old }
    requires called { IsCalled net.old called.now }
    requires items { length called.now.summary.now.items < 2 ^ 32 }
    requires outcome { IsOutcomeBelow net.old given.now.outcome }
    requires kind { IsKindBelow net.old given.now.kind }
    ensures grown { Grown net.old net.new }
    ensures ok { IfOk result (λ r. RowsStand (seen.env here.now).source (seen.env here.now).layout net.new
        called.now given.now store.now.locations.items r.at) }
{
    let rows = exit_rows(called.summary.items.as_slice());
    let exit = exit_stands(net, called.given, given, rows)?;
    let items = items_stand(here, net, store, called, given.outcome)?;
    let r = net.and(exit, items)?;
    Ok(r)
}
