//! Tries to lock.

ghost use Rattle.std.specs.Prelude.{◌≡◌, ℕ, ◌<◌, ◌≤◌, length, IfOk, OnOk};
ghost use Rattle.bit_net.specs.Circuit.{input_count};
ghost use Rattle.bit_net.specs.Runs.{Grown};
ghost use Rattle.gl_sets.specs.Guards.{guards_top};
ghost use Rattle.gl_store.specs.Meets.{locations_top, val_top};
ghost use Rattle.gate_runs.specs.Stands.{AreEnds};
ghost use Rattle.sc_world.specs.View.{type};
ghost use Rattle.run_world.specs.Seen as seen;
ghost use Rattle.gate_places.specs.Checks.{HaveTests, IsTest};
ghost use Rattle.gate_acts.specs.Acts.{DoesTry, IsHad, IsTried, LocksEach, LocksTarget, Takes, TryFits, is_open};

use crate::values::{pointer_of, state_cell};
use bit_net::{Gate, Net, OutOfMemory};
use bit_words::{constant, is_number, select};
use gate_entry::chosen_bit;
use gate_places::reach;
use gate_runs::Ends;
use gate_steps::mark;
use gl_sets::{Pair, Set, where_target};
use gl_store::{Flag, Store, Val};
use run_entry::integer_bits;
use run_world::Here;
use sc_tree::ctype::CType;

/// What a try is about.
#[derive(Clone, Copy)]
pub struct Trying<'t> {
    /// The type of what it gives.
    pub t: &'t CType,
    /// The bit of the choice that says whether a lock that is not locked is had.
    pub bit: u32,
    /// What it gives where the lock was had.
    pub success: u32,
    /// What it gives where not.
    pub failure: u32,
}

// The state of a lock that is locked.
const LOCKED: u64 = 1;

// The number of bits of a state in the store.
const STATE_BITS: usize = 4;

// Holds where the lock at a target is not locked.
fn open_at(here: &Here, net: &mut Net, stored: &Store, target: u32) -> Result<Gate, OutOfMemory>
    requires store { locations_top stored.now.locations.items ≤ length net.old }
    ensures grown { Grown net.old net.new }
    ensures ok { IfOk result (λ r. IsTest net.new stored.now.locations.items
        (λ ps. is_open (length (seen.env here.now).layout.locations) ps target) r.at) }
{
    let at = target.saturating_sub(1);
    let is_locked = is_number(net, stored.word_at(state_cell(here, at)), LOCKED)?;
    let r = net.not(is_locked)?;
    Ok(r)
}

// For each pair a gate that holds where the lock at its target is not locked.
fn open_each(
    here: &Here,
    net: &mut Net,
    stored: &Store,
    pairs: &[Pair],
) -> Result<Vec<Gate>, OutOfMemory>
    requires store { locations_top stored.now.locations.items ≤ length net.old }
    ensures grown { Grown net.old net.new }
    ensures ok { IfOk result (λ r. HaveTests net.new stored.now.locations.items
        (λ ps target. is_open (length (seen.env here.now).layout.locations) ps target) pairs.now r.items) }
{
    let mut tests = Vec::new(net.alloc());
    for pair in pairs {
        let test = open_at(here, net, stored, pair.target)?;
        tests.push(test)?;
    }
    Ok(tests)
}

// Holds where the lock can be had: it is not locked, and the choice says so.
fn had(
    here: &Here,
    net: &mut Net,
    stored: &Store,
    pointer: &Set,
    bit: u32,
) -> Result<Gate, OutOfMemory>
    requires inputs { (seen.env here.now).layout.bits ≤ input_count net.old }
    requires store { locations_top stored.now.locations.items ≤ length net.old }
    requires pointer { guards_top pointer.now.pairs.items ≤ length net.old }
    ensures grown { Grown net.old net.new }
    ensures ok { IfOk result (λ r. IsHad (seen.env here.now).layout net.new stored.now.locations.items pointer.now.pairs.items bit r.at) }
{
    let tests = open_each(here, net, stored, pointer.pairs.as_slice())?;
    let is_open = where_target(net, pointer, tests.as_slice())?;
    let chosen = chosen_bit(here, net, bit as usize);
    let r = net.and(is_open, chosen)?;
    Ok(r)
}

// Locks the target of a pair, where its guard holds and `had` does; nothing for null.
fn lock_target(
    here: &Here,
    net: &mut Net,
    stored: &mut Store,
    had: Gate,
    pair: Pair,
) -> Result<(), OutOfMemory>
    requires store { locations_top stored.old.locations.items ≤ length net.old }
    requires had { had.at < length net.old }
    requires guard { pair.guard.at < length net.old }
    ensures grown { Grown net.old net.new }
    ensures ok { OnOk result (LocksTarget (seen.env here.now).source (seen.env here.now).layout net.new had.at pair
        stored.old.locations.items stored.new.locations.items) }
{
    if pair.target == 0 {
        return Ok(());
    }
    let at = pair.target - 1;
    let when = net.and(had, pair.guard)?;
    let locked = constant(net, LOCKED, STATE_BITS)?;
    stored.put_where(net, when, state_cell(here, at), &Val::Word(locked))?;
    Ok(())
}

// Locks the target of each pair, where its guard holds and `had` does.
fn lock_each(
    here: &Here,
    net: &mut Net,
    stored: &mut Store,
    had: Gate,
    pairs: &[Pair],
) -> Result<(), OutOfMemory>
    requires store { locations_top stored.old.locations.items ≤ length net.old }
    requires had { had.at < length net.old }
    requires guards { guards_top pairs.now ≤ length net.old }
    ensures grown { Grown net.old net.new }
    ensures ok { OnOk result (LocksEach (seen.env here.now).source (seen.env here.now).layout net.new had.at pairs.now
        stored.old.locations.items stored.new.locations.items) }
{
    for pair in pairs {
        lock_target(here, net, stored, had, *pair)?;
    }
    Ok(())
}

// What a try gives: one number where the lock was had, another one where not.
fn tried(here: &Here, net: &mut Net, trying: Trying, had: Gate) -> Result<Val, OutOfMemory>
    requires fits { TryFits (seen.env here.now).source (type trying.t.now) trying.success trying.failure }
    requires had { had.at < length net.old }
    ensures grown { Grown net.old net.new }
    ensures ok { IfOk result (λ r. IsTried (seen.env here.now).source net.new (type trying.entry.t.now) trying.entry.success trying.entry.failure had.at r) }
{
    let width = integer_bits(here, trying.t) as usize;
    let yes = constant(net, trying.success as u64, width)?;
    let no = constant(net, trying.failure as u64, width)?;
    let word = select(net, had, &yes, &no)?;
    Ok(Val::Word(word))
}

// The lock to which a pointer leads is taken where it can be had; the gate tells where.
fn take(
    here: &Here,
    net: &mut Net,
    stored: &mut Store,
    ends: &Ends,
    bit: u32,
    pointer: &Set,
) -> Result<Gate, OutOfMemory>
    requires inputs { (seen.env here.now).layout.bits ≤ input_count net.old }
    requires store { locations_top stored.old.locations.items ≤ length net.old }
    requires ends { AreEnds net.old ends.now }
    requires pointer { guards_top pointer.now.pairs.items ≤ length net.old }
    ensures grown { Grown net.old net.new }
    ensures ok { IfOk result (λ r. Takes (seen.env here.now).source (seen.env here.now).layout net.new bit pointer.now.pairs.items
        stored.old.locations.items stored.new.locations.items ends.now r.at) }
{
    let is_had = had(here, net, stored, pointer, bit)?;
    let when = net.and(ends.live, is_had)?;
    lock_each(here, net, stored, when, pointer.pairs.as_slice())?;
    Ok(is_had)
}

/// A try to lock what a value points to. It is set aside where that is null, a stub or freed; else the location is touched. A lock that is
/// locked cannot be had, any other one is if the choice says so; it is locked then. After a refusal of memory neither store nor gates of the
/// run are to be used again.
pub fn try_lock(
    here: &Here,
    net: &mut Net,
    stored: &mut Store,
    ends: &mut Ends,
    trying: Trying,
    val: &Val,
) -> Result<Val, OutOfMemory>
    requires fits { TryFits (seen.env here.now).source (type trying.t.now) trying.success trying.failure }
    requires inputs { (seen.env here.now).layout.bits ≤ input_count net.old }
    requires store { locations_top stored.old.locations.items ≤ length net.old }
    requires ends { AreEnds net.old ends.old }
    requires val { val_top val.now ≤ length net.old }
    ensures grown { Grown net.old net.new }
    ensures ready { IfOk result (λ r. AreEnds net.new ends.new) }
    ensures locations { IfOk result (λ r. length ends.new.bads.items ≡ length ends.old.bads.items) }
    ensures ok { IfOk result (λ r. DoesTry (seen.env here.now).source (seen.env here.now).layout net.new (type trying.entry.t.now)
        trying.entry.bit trying.entry.success trying.entry.failure val.now stored.old.locations.items stored.new.locations.items ends.old ends.new r) }
{
    let pointer = pointer_of(net, val)?;
    reach(here.places, net, stored, ends, &pointer)?;
    mark(net, stored, ends, &pointer, Flag::Touched)?;
    let is_had = take(here, net, stored, ends, trying.bit, &pointer)?;
    let r = tried(here, net, trying, is_had)?;
    Ok(r)
}
