//! Stores that are made: fresh ones, and the merge of the stores of two branches.
ghost use Rattle.std.specs.Prelude.{◌≡◌, ℕ, ◌<◌, ◌≤◌, length, IfOk};
ghost use Rattle.bit_net.specs.Runs.{Grown};
ghost use Rattle.gl_store.specs.Meets.{val_kind, val_top, flags_top, kinds, locations_top};
ghost use Rattle.gl_store.specs.Steps.{IsChoice, IsFresh, IsMerged, IsMergedLocation, IsMergedFlags, IsSameStore};

use crate::stores::{Flags, Location, Shape, Store};
use crate::values::{Val, blank, choose};
use bit_net::{Gate, Net, OutOfMemory};

impl Store {
    /// A store in which nothing has happened: 0 of its width or null in each cell, and no flag holds.
    pub fn new(net: &mut Net, shape: &Shape) -> Result<Store, OutOfMemory>
        ensures net { net.new ≡ net.old }
        ensures ok { IfOk result (λ r. IsFresh net.new shape.now.cells.items r.locations.items) }
    {
        let locations = fresh_locations(net, &shape.cells)?;
        Ok(Store { locations })
    }

    /// The same store once more.
    pub fn try_clone(&self, net: &Net) -> Result<Store, OutOfMemory>
        ensures { IfOk result (λ r. IsSameStore self.now.locations.items r.locations.items) }
    {
        let locations = copied_locations(net, &self.locations)?;
        Ok(Store { locations })
    }
}

/// The same locations once more.
fn copied_locations(net: &Net, old: &[Location]) -> Result<Vec<Location>, OutOfMemory>
    ensures { IfOk result (λ r. IsSameStore old.now r.items) }
{
    let mut locations = Vec::new(net.alloc());
    for location in old {
        let val = location.val.try_clone(net)?;
        let flags = location.flags;
        locations.push(Location { val, flags })?;
    }
    Ok(locations)
}

/// The store `a` where `c` holds, else the store `b`. What is the same gate in both costs no gate.
pub fn merge(net: &mut Net, c: Gate, a: &Store, b: &Store) -> Result<Store, OutOfMemory>
    requires shape { kinds a.now.locations.items ≡ kinds b.now.locations.items }
    requires c { c.at < length net.old }
    requires a { locations_top a.now.locations.items ≤ length net.old }
    requires b { locations_top b.now.locations.items ≤ length net.old }
    ensures grown { Grown net.old net.new }
    ensures ok { IfOk result (λ r. IsMerged net.new c.at a.now.locations.items b.now.locations.items r.locations.items) }
{
    let locations = merge_locations(net, c, &a.locations, &b.locations)?;
    Ok(Store { locations })
}

/// Locations of these widths in which nothing has happened.
fn fresh_locations(net: &Net, widths: &[u32]) -> Result<Vec<Location>, OutOfMemory>
    ensures { IfOk result (λ r. IsFresh net.now widths.now r.items) }
{
    let never = net.constant(false);
    let flags = Flags {
        touched: never,
        written: never,
        allocated: never,
        freed: never,
        escaped: never,
    };
    let mut locations = Vec::new(net.alloc());
    for width in widths {
        let val = blank(net, *width)?;
        locations.push(Location { val, flags })?;
    }
    Ok(locations)
}

/// The locations `a` where `c` holds, else the locations `b`.
fn merge_locations(
    net: &mut Net,
    c: Gate,
    a: &[Location],
    b: &[Location],
) -> Result<Vec<Location>, OutOfMemory>
    requires count { length a.now ≡ length b.now }
    requires shape { kinds a.now ≡ kinds b.now }
    requires c { c.at < length net.old }
    requires a { locations_top a.now ≤ length net.old }
    requires b { locations_top b.now ≤ length net.old }
    ensures grown { Grown net.old net.new }
    ensures ok { IfOk result (λ r. IsMerged net.new c.at a.now b.now r.items) }
{
    let mut locations = Vec::new(net.alloc());
    for i in 0..a.len() {
        let location = merge_location(net, c, &a[i], &b[i])?;
        locations.push(location)?;
    }
    Ok(locations)
}

/// The location `a` where `c` holds, else the location `b`.
fn merge_location(
    net: &mut Net,
    c: Gate,
    a: &Location,
    b: &Location,
) -> Result<Location, OutOfMemory>
    requires kind { val_kind a.now.val ≡ val_kind b.now.val }
    requires c { c.at < length net.old }
    requires a { val_top a.now.val ≤ length net.old }
    requires b { val_top b.now.val ≤ length net.old }
    requires a_flags { flags_top a.now.flags ≤ length net.old }
    requires b_flags { flags_top b.now.flags ≤ length net.old }
    ensures grown { Grown net.old net.new }
    ensures ok { IfOk result (λ r. IsMergedLocation net.new c.at a.now b.now r) }
{
    let val = merge_vals(net, c, &a.val, &b.val)?;
    let flags = merge_flags(net, c, a.flags, b.flags)?;
    Ok(Location { val, flags })
}

/// The value `a` where `c` holds, else the value `b`, which is of the same kind.
fn merge_vals(net: &mut Net, c: Gate, a: &Val, b: &Val) -> Result<Val, OutOfMemory>
    requires kind { val_kind a.now ≡ val_kind b.now }
    requires c { c.at < length net.old }
    requires a { val_top a.now ≤ length net.old }
    requires b { val_top b.now ≤ length net.old }
    ensures grown { Grown net.old net.new }
    ensures ok { IfOk result (λ r. IsChoice net.new c.at a.now b.now r) }
{
    let chosen = choose(net, c, a, b)?;
    match chosen {
        Some(val) => Ok(val),
        None => Ok(Val::Unit),
    }
}

/// The flags `a` where `c` holds, else the flags `b`.
fn merge_flags(net: &mut Net, c: Gate, a: Flags, b: Flags) -> Result<Flags, OutOfMemory>
    requires c { c.at < length net.old }
    requires a { flags_top a ≤ length net.old }
    requires b { flags_top b ≤ length net.old }
    ensures grown { Grown net.old net.new }
    ensures ok { IfOk result (λ r. IsMergedFlags net.new c.at a b r) }
{
    let touched = net.mux(c, a.touched, b.touched)?;
    let written = net.mux(c, a.written, b.written)?;
    let allocated = net.mux(c, a.allocated, b.allocated)?;
    let freed = net.mux(c, a.freed, b.freed)?;
    let escaped = net.mux(c, a.escaped, b.escaped)?;
    Ok(Flags {
        touched,
        written,
        allocated,
        freed,
        escaped,
    })
}
