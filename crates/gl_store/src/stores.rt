//! Stores: made fresh, read and written through guarded sets, merged at a branch, and marked.
ghost use Rattle.std.specs.Prelude.{◌≡◌, ℕ, ◌<◌, ◌≤◌, ◌||◌, Bool, length, IfOk, OnOk, OnErr};
ghost use Rattle.bit_net.specs.Runs.{Grown, Gives};
ghost use Rattle.bit_words.specs.Number.{number, top};
ghost use Rattle.gl_sets.specs.Guards.{guards_top};
ghost use Rattle.run_store.specs.Concrete.{Cell, width_kind};
ghost use Rattle.gl_store.specs.Meets.{val_top, locations_top, kinds, Meets};
ghost use Rattle.gl_store.specs.Steps.{IsLoaded, IsNumberAt, IsPut, IsStored, IsRead, IsWritten, number_in};

use crate::values::{Val, blank, overwrite};
use bit_net::{Gate, Net, OutOfMemory};
use gl_sets::{Pair, Set};

/// A gate for each flag.
#[derive(Clone, Copy, Debug)]
pub struct Flags {
    pub touched: Gate,
    pub written: Gate,
    pub allocated: Gate,
    pub freed: Gate,
    pub escaped: Gate,
}

/// A location of a store: its value and its flags.
#[derive(Drop)]
pub struct Location {
    pub val: Val,
    pub flags: Flags,
}

/// The width of each location's cell: 0 where there is no cell, 255 for a pointer.
#[derive(Drop)]
pub struct Shape {
    pub cells: Vec<u32>,
}

/// A guarded store.
#[derive(Drop)]
pub struct Store {
    pub locations: Vec<Location>,
}

impl Store {
    /// The value that is read at the target of `at`: 0 or null where the target is no cell of the width.
    pub fn load(&self, net: &mut Net, at: &Set, width: u32) -> Result<Val, OutOfMemory>
        requires store { locations_top self.now.locations.items ≤ length net.old }
        requires at { guards_top at.now.pairs.items ≤ length net.old }
        ensures grown { Grown net.old net.new }
        ensures ok { IfOk result (λ r. IsLoaded net.new self.now.locations.items at.now.pairs.items (width_kind width) r) }
    {
        load_from(net, &self.locations, at.pairs.as_slice(), width)
    }

    /// Where `live` holds, writes the value at the target of `at`, unless the target is no cell of the value's kind. After a
    /// refusal the store may be written in part, and is not to be used again.
    pub fn store(&mut self, net: &mut Net, live: Gate, at: &Set, v: &Val) -> Result<(), OutOfMemory>
        requires store { locations_top self.old.locations.items ≤ length net.old }
        requires live { live.at < length net.old }
        requires at { guards_top at.now.pairs.items ≤ length net.old }
        requires v { val_top v.now ≤ length net.old }
        ensures grown { Grown net.old net.new }
        ensures ok { OnOk result (IsStored net.new live.at at.now.pairs.items v.now self.old.locations.items self.new.locations.items) }
    {
        store_into(net, live, &mut self.locations, at.pairs.as_slice(), v)
    }

    /// Where `when` holds, writes the value to the location with that number, unless it is of another kind or there is none. After
    /// a refusal the store is not to be used again.
    pub fn put_where(
        &mut self,
        net: &mut Net,
        when: Gate,
        at: usize,
        v: &Val,
    ) -> Result<(), OutOfMemory>
        requires store { locations_top self.old.locations.items ≤ length net.old }
        requires when { when.at < length net.old }
        requires v { val_top v.now ≤ length net.old }
        ensures grown { Grown net.old net.new }
        ensures ok { OnOk result (IsPut net.new when.at at v.now self.old.locations.items self.new.locations.items) }
    {
        put_at(net, when, at, &mut self.locations, v)
    }

    /// The bits of the word that the location with that number has; none where it has no word. They spell the number of its cell.
    pub fn word_at(&self, at: usize) -> &[Gate]
        ensures { IsNumberAt self.now.locations.items at result.now }
    {
        bits_at(&self.locations, at)
    }
}

/// The bits of the word of a location.
fn bits_at(locations: &[Location], at: usize) -> &[Gate]
    ensures { IsNumberAt locations.now at result.now }
{
    if at < locations.len() {
        bits_of(&locations[at].val)
    } else {
        &[]
    }
}

/// The bits of a word, none of another value.
fn bits_of(val: &Val) -> &[Gate]
    ensures below { top result.now ≤ val_top val.now }
    ensures value { (v : ℕ → Bool) (x : Cell) → Meets v val.now x → number v result.now ≡ number_in x }
{
    match val {
        Val::Word(word) => &word.bits,
        Val::Set(_) => &[],
        Val::Unit => &[],
    }
}

/// Writes a value to a location, where `when` holds.
fn put_at(
    net: &mut Net,
    when: Gate,
    at: usize,
    locations: &mut [Location],
    v: &Val,
) -> Result<(), OutOfMemory>
    requires locations { locations_top locations.old ≤ length net.old }
    requires when { when.at < length net.old }
    requires v { val_top v.now ≤ length net.old }
    ensures grown { Grown net.old net.new }
    ensures ok { OnOk result (IsPut net.new when.at at v.now locations.old locations.new) }
{
    if at >= locations.len() {
        return Ok(());
    }
    let location = &mut locations[at];
    overwrite(net, when, &mut location.val, v)?;
    Ok(())
}

/// Reads at the target of the pairs.
fn load_from(
    net: &mut Net,
    locations: &[Location],
    at: &[Pair],
    width: u32,
) -> Result<Val, OutOfMemory>
    requires locations { locations_top locations.now ≤ length net.old }
    requires at { guards_top at.now ≤ length net.old }
    ensures grown { Grown net.old net.new }
    ensures ok { IfOk result (λ r. IsLoaded net.new locations.now at.now (width_kind width) r) }
{
    let mut found = blank(net, width)?;
    for pair in at {
        read_where(net, *pair, locations, &mut found)?;
    }
    Ok(found)
}

/// Writes the value at the target of a pair over what is found, where its guard holds.
fn read_where(
    net: &mut Net,
    pair: Pair,
    locations: &[Location],
    found: &mut Val,
) -> Result<(), OutOfMemory>
    requires pair { pair.guard.at < length net.old }
    requires locations { locations_top locations.now ≤ length net.old }
    requires found { val_top found.old ≤ length net.old }
    ensures grown { Grown net.old net.new }
    ensures ok { OnOk result (IsRead net.new pair locations.now found.old found.new) }
{
    let target = pair.target as usize;
    if target == 0 || target > locations.len() {
        return Ok(());
    }
    overwrite(net, pair.guard, found, &locations[target - 1].val)?;
    Ok(())
}

/// Writes a value at the target of the pairs, where `live` holds.
fn store_into(
    net: &mut Net,
    live: Gate,
    locations: &mut [Location],
    at: &[Pair],
    v: &Val,
) -> Result<(), OutOfMemory>
    requires locations { locations_top locations.old ≤ length net.old }
    requires live { live.at < length net.old }
    requires at { guards_top at.now ≤ length net.old }
    requires v { val_top v.now ≤ length net.old }
    ensures grown { Grown net.old net.new }
    ensures ok { OnOk result (IsStored net.new live.at at.now v.now locations.old locations.new) }
{
    for pair in at {
        let when = net.and(live, pair.guard)?;
        write_where(net, when, pair.target, locations, v)?;
    }
    Ok(())
}

/// Writes a value at a target, where `when` holds.
fn write_where(
    net: &mut Net,
    when: Gate,
    target: u32,
    locations: &mut [Location],
    v: &Val,
) -> Result<(), OutOfMemory>
    requires locations { locations_top locations.old ≤ length net.old }
    requires when { when.at < length net.old }
    requires v { val_top v.now ≤ length net.old }
    ensures grown { Grown net.old net.new }
    ensures ok { OnOk result (IsWritten net.new when.at target v.now locations.old locations.new) }
{
    let target = target as usize;
    if target == 0 || target > locations.len() {
        return Ok(());
    }
    let location = &mut locations[target - 1];
    overwrite(net, when, &mut location.val, v)?;
    Ok(())
}
