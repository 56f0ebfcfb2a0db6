//! The flags of locations, read and made to hold.
ghost use Rattle.std.specs.Prelude.{◌≡◌, ℕ, ◌<◌, ◌≤◌, ◌||◌, length, IfOk, OnOk, OnErr, slice_set};
ghost use Rattle.bit_net.specs.Runs.{Grown, Gives};
ghost use Rattle.gl_sets.specs.Guards.{guards_top};
ghost use Rattle.gl_store.specs.Meets.{locations_top, flags_top, gate_of, with_gate};
ghost use Rattle.gl_store.specs.Steps.{IsFlag, IsFlagAnywhere, IsMarked, IsMarkedTarget, IsMarkedWhere};

use crate::stores::{Flags, Location, Store};
use bit_net::{Gate, Net, OutOfMemory};
use gl_sets::{Pair, Set};
use run_store::Flag;

impl Store {
    /// The gate of a flag of a location.
    pub fn flag(&self, at: u32, flag: Flag) -> Gate
        requires { at < length self.now.locations.items }
        ensures { IsFlag self.now.locations.items at flag result.at }
    {
        flag_at(&self.locations, at as usize, flag)
    }

    /// The gate of a flag of a location, the constant false where there is no such location.
    pub fn flag_anywhere(&self, net: &Net, at: u32, flag: Flag) -> Gate
        requires { locations_top self.now.locations.items ≤ length net.now }
        ensures { IsFlagAnywhere net.now self.now.locations.items at flag result.at }
    {
        flag_or_never(net, &self.locations, at as usize, flag)
    }

    /// Where `live` holds, makes a flag hold at the location that `at` points to; null changes nothing. After a refusal the store may
    /// be marked in part, and is not to be used again.
    pub fn mark_where(
        &mut self,
        net: &mut Net,
        live: Gate,
        at: &Set,
        flag: Flag,
    ) -> Result<(), OutOfMemory>
        requires store { locations_top self.old.locations.items ≤ length net.old }
        requires live { live.at < length net.old }
        requires at { guards_top at.now.pairs.items ≤ length net.old }
        ensures grown { Grown net.old net.new }
        ensures ok { OnOk result (IsMarkedWhere net.new live.at at.now.pairs.items flag self.old.locations.items self.new.locations.items) }
    {
        mark_pairs(net, live, &mut self.locations, at.pairs.as_slice(), flag)
    }

    /// Makes a flag of a location hold also where `when` holds; all else stays, and after a refusal the store is as before.
    pub fn mark(
        &mut self,
        net: &mut Net,
        when: Gate,
        at: u32,
        flag: Flag,
    ) -> Result<(), OutOfMemory>
        requires place { at < length self.old.locations.items }
        requires store { locations_top self.old.locations.items ≤ length net.old }
        requires when { when.at < length net.old }
        ensures grown { Grown net.old net.new }
        ensures ok { OnOk result (IsMarked net.new when.at at flag self.old.locations.items self.new.locations.items) }
        ensures err { OnErr result (self.new.locations.items ≡ self.old.locations.items) }
    {
        mark_at(net, when, &mut self.locations, at as usize, flag)
    }
}

/// The gate of a flag of a location.
fn flag_at(locations: &[Location], at: usize, flag: Flag) -> Gate
    requires { at < length locations.now }
    ensures { IsFlag locations.now at flag result.at }
{
    gate_of_flag(locations[at].flags, flag)
}

/// The gate of a flag of a location, the constant false past the end.
fn flag_or_never(net: &Net, locations: &[Location], at: usize, flag: Flag) -> Gate
    requires { locations_top locations.now ≤ length net.now }
    ensures { IsFlagAnywhere net.now locations.now at flag result.at }
{
    if at < locations.len() {
        flag_at(locations, at, flag)
    } else {
        net.constant(false)
    }
}

/// Makes a flag hold at the target of the pairs, where `live` holds.
fn mark_pairs(
    net: &mut Net,
    live: Gate,
    locations: &mut [Location],
    at: &[Pair],
    flag: Flag,
) -> Result<(), OutOfMemory>
    requires locations { locations_top locations.old ≤ length net.old }
    requires live { live.at < length net.old }
    requires at { guards_top at.now ≤ length net.old }
    ensures grown { Grown net.old net.new }
    ensures ok { OnOk result (IsMarkedWhere net.new live.at at.now flag locations.old locations.new) }
{
    for pair in at {
        let when = net.and(live, pair.guard)?;
        mark_target(net, when, pair.target, locations, flag)?;
    }
    Ok(())
}

/// Makes a flag hold at a target, where `when` holds.
fn mark_target(
    net: &mut Net,
    when: Gate,
    target: u32,
    locations: &mut [Location],
    flag: Flag,
) -> Result<(), OutOfMemory>
    requires locations { locations_top locations.old ≤ length net.old }
    requires when { when.at < length net.old }
    ensures grown { Grown net.old net.new }
    ensures ok { OnOk result (IsMarkedTarget net.new when.at target flag locations.old locations.new) }
{
    let target = target as usize;
    if target == 0 || target > locations.len() {
        return Ok(());
    }
    mark_at(net, when, locations, target - 1, flag)?;
    Ok(())
}

/// Makes a flag of a location hold also where `when` holds.
fn mark_at(
    net: &mut Net,
    when: Gate,
    locations: &mut [Location],
    at: usize,
    flag: Flag,
) -> Result<(), OutOfMemory>
    requires place { at < length locations.old }
    requires locations { locations_top locations.old ≤ length net.old }
    requires when { when.at < length net.old }
    ensures grown { Grown net.old net.new }
    ensures ok { OnOk result (IsMarked net.new when.at at flag locations.old locations.new) }
    ensures err { OnErr result (locations.new ≡ locations.old) }
{
    let old = locations[at].flags;
    let gate = net.or(gate_of_flag(old, flag), when)?;
    locations[at].flags = with_flag(old, flag, gate);
    Ok(())
}

/// The gate of a flag.
fn gate_of_flag(flags: Flags, flag: Flag) -> Gate
    ensures { result.at ≡ gate_of flags flag }
{
    match flag {
        Flag::Touched => flags.touched,
        Flag::Written => flags.written,
        Flag::Allocated => flags.allocated,
        Flag::Freed => flags.freed,
        Flag::Escaped => flags.escaped,
    }
}

/// The flags with another gate for one of them.
fn with_flag(flags: Flags, flag: Flag, gate: Gate) -> Flags
    ensures { result ≡ with_gate flags flag gate }
{
    match flag {
        Flag::Touched => Flags {
            touched: gate,
            ..flags
        },
        Flag::Written => Flags {
            written: gate,
            ..flags
        },
        Flag::Allocated => Flags {
            allocated: gate,
            ..flags
        },
        Flag::Freed => Flags {
            freed: gate,
            ..flags
        },
        Flag::Escaped => Flags {
            escaped: gate,
            ..flags
        },
    }
}
