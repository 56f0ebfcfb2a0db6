// The memory of a function's runs, and the run.

ghost use Rattle.std.specs.Prelude.{◌≡◌, ◌+◌, ◌*◌, ◌<◌, ◌≤◌, ◌^◌, [], length, vec_capacity, IfOk};
ghost use Rattle.fsm_spec.specs.Table.{IsWhole};
ghost use Rattle.run_store.specs.Concrete.{nth_cell, flag_at};
ghost use Rattle.sc_world.specs.Exec as spec;
ghost use Rattle.sc_world.specs.World.{entry_world, number_of};
ghost use Rattle.layout_base.specs.Seen as laid;
ghost use Rattle.run_world.specs.Seen as seen;
ghost use Rattle.run_acts.specs.Room.{fits_all_prop};
ghost use Rattle.run_paths.specs.Seen.{FitsAll};
ghost use Rattle.run_laws.specs.Proper.{IsClosed};
ghost use Rattle.run_answers.specs.Seen as answers;
ghost use Rattle.sc_world.specs.Verdict as verdict;
ghost use Rattle.sc_interp.specs.Cells.{KeepsCells, keeps_cells_prop};
ghost use Rattle.sc_interp.specs.Room.{run_room};
ghost use Rattle.sc_interp.specs.Seen.{ended};

use crate::body::{body_at, run_body};
use crate::calling::Calling;
use crate::outcome::Outcome;
use layout_base::{Ground, Places};
use run_answers::Over;
use run_entry::{enter, reserve};
use run_inits::Space;
use run_known::most_items;
use run_laws::worlds_stay_proper;
use run_paths::Buffer;
use run_room::statement_room;
use run_store::Flag;
use run_world::{Ended, Here, Value, World};
use sc_base::OutOfMemory;
use std::alloc::Global;
use std::mem;
use sum_rows::Event;

// The room of a run.
#[tactic(auto, unfolding(crate::specs::Room::run_room))]
fn room(here: &Here) -> Result<usize, OutOfMemory>
    ensures { IfOk result (λ n. n ≡ run_room (seen.env here.now).source (seen.env here.now).layout) }
{
    let body = match body_at(here) {
        None => 0,
        Some(s) => statement_room(here, s)?,
    };
    body.checked_add(1).ok_or(OutOfMemory)
}

/// The memory of the runs of a function.
#[derive(Drop)]
pub struct Machine<'p, 'm, 'f> {
    /// What is read of the program.
    pub given: Ground<'p, 'm, 'f>,
    /// What is laid out.
    pub places: &'f Places<'p>,
    /// The store and the trace of the last run.
    pub world: World,

    // beside the world
    space: Space,

    // for what a known call finds
    buffer: Buffer<'p>,
    alloc: Global,
    ghost few: { length places.now.locations.items < 2 ^ 32 },
    ghost long: { KeepsCells (laid.ground_of given).source (laid.layout_of places.now) } by { keeps_cells_prop _ _ },
    ghost slots: { 2 * length (laid.layout_of places.now).locations ≤ vec_capacity world.slots },
    ghost trace: { run_room (laid.ground_of given).source (laid.layout_of places.now) ≤ vec_capacity world.trace },
    ghost arguments: { run_room (laid.ground_of given).source (laid.layout_of places.now)
        ≤ vec_capacity space.kept.arguments },
    ghost cells: { length (laid.layout_of places.now).locations ≤ vec_capacity space.kept.cells },
    ghost stores: { run_room (laid.ground_of given).source (laid.layout_of places.now) ≤ vec_capacity space.stores },
    ghost turns: { run_room (laid.ground_of given).source (laid.layout_of places.now) < 2 ^ 32 },
    ghost fits: { FitsAll (laid.ground_of given).source buffer.most } by { fits_all_prop (laid.ground_of given).source buffer.most },
}

// No run over a closed layout loses a cell, if the machine of states is whole.
fn cells_stay(given: &Ground, places: &Places)
    requires whole { IsWhole (laid.ground_of given.now).source.machine }
    requires closed { IsClosed (laid.layout_of places.now) }
    ensures { KeepsCells (laid.ground_of given.now).source (laid.layout_of places.now) }
{
    worlds_stay_proper();
}

// No room for what a known call finds.
fn no_buffer<'p>(alloc: Global) -> Buffer<'p> {
    Buffer {
        locks: Vec::new(alloc),
        outs: Vec::new(alloc),
        writes: Vec::new(alloc),
        most: 0,
    }
}

// The world becomes that at entry of the run, and no argument of an earlier one waits.
fn begin(here: &Here, world: &mut World, space: &mut Space)
    requires room { 2 * length (seen.env here.now).layout.locations ≤ vec_capacity world.old.slots }
    ensures world { seen.world world.new
        ≡ entry_world (seen.env here.now).source (seen.env here.now).layout (seen.env here.now).choice }
    ensures empty { space.new.kept.arguments.items ≡ [] }
    ensures trace { vec_capacity world.old.trace ≤ vec_capacity world.new.trace }
    ensures arguments { vec_capacity space.old.kept.arguments ≤ vec_capacity space.new.kept.arguments }
    ensures cells { vec_capacity space.old.kept.cells ≤ vec_capacity space.new.kept.cells }
    ensures stores { vec_capacity space.old.stores ≤ vec_capacity space.new.stores }
{
    space.kept.arguments.clear();
    enter(here, world);
}

// Runs the function from the world at entry, with the room that there is.
#[tactic(auto, using(crate::proofs::Runs::run_steps), unfolding(run_world::specs::Seen::env, crate::specs::Room::run_room))]
fn run_with<'p>(
    here: &Here<'p, '_, '_>,
    world: &mut World,
    space: &mut Space,
    buffer: &mut Buffer<'p>,
    alloc: Global,
) -> Result<Value, Ended>
    requires turn { here.now.turn ≡ 0 }
    requires few { length here.now.places.now.locations.items < 2 ^ 32 }
    requires long { KeepsCells (seen.env here.now).source (seen.env here.now).layout }
    requires slots { 2 * length (seen.env here.now).layout.locations ≤ vec_capacity world.old.slots }
    requires cells { length (seen.env here.now).layout.locations ≤ vec_capacity space.old.kept.cells }
    requires events { run_room (seen.env here.now).source (seen.env here.now).layout ≤ vec_capacity world.old.trace }
    requires arguments { run_room (seen.env here.now).source (seen.env here.now).layout
        ≤ vec_capacity space.old.kept.arguments }
    requires stores { run_room (seen.env here.now).source (seen.env here.now).layout ≤ vec_capacity space.old.stores }
    requires turns { run_room (seen.env here.now).source (seen.env here.now).layout < 2 ^ 32 }
    requires fits { FitsAll (seen.env here.now).source buffer.old.most }
    ensures run { seen.Does seen.cell
        (spec.run (seen.env here.now).source (seen.env here.now).layout (seen.env here.now).choice)
        result (seen.world world.new) }
    ensures slots { 2 * length (seen.env here.now).layout.locations ≤ vec_capacity world.new.slots }
    ensures trace { vec_capacity world.old.trace ≤ vec_capacity world.new.trace }
    ensures arguments { vec_capacity space.old.kept.arguments ≤ vec_capacity space.new.kept.arguments }
    ensures cells { vec_capacity space.old.kept.cells ≤ vec_capacity space.new.kept.cells }
    ensures stores { vec_capacity space.old.stores ≤ vec_capacity space.new.stores }
    ensures fits { FitsAll (seen.env here.now).source buffer.new.most }
{
    begin(here, world, space);
    let mut calls = Calling {
        given: here.ground,
        places: here.places,
        choice: here.choice,
        buffer: mem::replace(buffer, no_buffer(alloc)),
    };
    let result = run_body(here, world, space, &mut calls);
    *buffer = calls.buffer;
    result
}

impl<'p, 'm, 'f> Machine<'p, 'm, 'f> {
    /// All memory that any run over these places needs. No memory has room for 2^32 locations, or for a run with 2^32
    /// events. The machine of states is one that a file spells, or that of locks, and the places are those that the
    /// layout of a function has: the laws on machines and layouts say what is asked here.
    #[tactic(auto, unfolding(run_world::specs::Seen::env))]
    pub fn reserve(
        alloc: Global,
        given: Ground<'p, 'm, 'f>,
        places: &'f Places<'p>,
    ) -> Result<Machine<'p, 'm, 'f>, OutOfMemory>
        requires whole { IsWhole (laid.ground_of given).source.machine }
        requires closed { IsClosed (laid.layout_of places.now) }
        ensures given { IfOk result (λ m. m.given ≡ given.entry) }
        ensures places { IfOk result (λ m. m.places.now ≡ places.now) }
    {
        if places.locations.len() > u32::MAX as usize {
            return Err(OutOfMemory);
        }
        let here = Here {
            ground: given,
            places,
            choice: &[],
            turn: 0,
        };
        let room = room(&here)?;
        if room > u32::MAX as usize {
            return Err(OutOfMemory);
        }
        let world = reserve(alloc, places, room)?;
        let space = Space::reserve(alloc, places, room)?;
        let buffer = Buffer::reserve(alloc, most_items(&here))?;
        cells_stay(&given, places);
        Ok(Machine {
            given,
            places,
            world,
            space,
            buffer,
            alloc,
        })
    }

    /// Runs the function on a choice: how the run ends, with the trace and the store of that run alone. It takes no
    /// memory.
    #[tactic(auto, using(crate::proofs::Runs::ending_steps), unfolding(run_world::specs::Seen::env))]
    pub fn run(&mut self, choice: &[bool]) -> Outcome
        ensures run { spec.run (laid.ground_of self.old.given).source (laid.layout_of self.old.places.now) choice.now
            ≡ (ended result, seen.world self.new.world) }
        ensures given { self.new.given ≡ self.old.given }
        ensures places { self.new.places.now ≡ self.old.places.now }
    {
        let here = Here {
            ground: self.given,
            places: self.places,
            choice,
            turn: 0,
        };
        Outcome::of(run_with(
            &here,
            &mut self.world,
            &mut self.space,
            &mut self.buffer,
            self.alloc,
        ))
    }

    /// The last run, as who answers questions reads it: on the choice that it was made on, and with the outcome that it
    /// had. It takes no memory.
    #[tactic(auto, unfolding(run_world::specs::Seen::env, run_answers::specs::Seen::over))]
    pub fn over<'a>(&'a self, made_on: &'a [bool], outcome: Outcome) -> Over<'p, 'm, 'a>
        ensures { answers.over result ≡ verdict.over (laid.ground_of self.now.given).source
            (laid.layout_of self.now.places.now) made_on.now (ended outcome, seen.world self.now.world) }
    {
        Over {
            here: Here {
                ground: self.given,
                places: self.places,
                choice: made_on,
                turn: 0,
            },
            world: &self.world,
            ended: outcome.into_result(),
        }
    }

    /// The trace of the last run.
    #[tactic(auto, unfolding(run_world::specs::Seen::world))]
    pub fn trace(&self) -> &[Event]
        ensures { result.now ≡ (seen.world self.now.world).trace }
    {
        self.world.trace.as_slice()
    }

    /// What the cell of a location holds behind the last run; nothing of a location that is not there.
    #[tactic(auto, unfolding(run_world::specs::Seen::world))]
    pub fn value(&self, at: u32) -> Value
        ensures { seen.cell result ≡ nth_cell (seen.world self.now.world).places at }
    {
        self.world.load(at as usize)
    }

    /// The state of a location behind the last run; 15 stands for any.
    #[tactic(auto, unfolding(run_world::specs::Seen::world, layout_base::specs::Seen::layout_of))]
    pub fn state(&self, at: u32) -> u64
        ensures { result ≡ number_of (nth_cell (seen.world self.now.world).places
            (length (laid.layout_of self.now.places.now).locations + at)) }
    {
        let state = self.world.load(self.places.locations.len() + at as usize);
        state.number()
    }

    /// Whether this happened to a location in the last run.
    #[tactic(auto, unfolding(run_world::specs::Seen::world))]
    pub fn has_mark(&self, at: u32, flag: Flag) -> bool
        ensures { result ≡ flag_at (seen.world self.now.world).places at flag }
    {
        self.world.has_mark(at as usize, flag)
    }
}
