// The calls of the runs of a function.

ghost use Rattle.std.specs.Prelude.{◌≡◌, ◌<◌, ◌≤◌, ◌+◌, ◌^◌, length, vec_capacity, IfOk, OnOk};
ghost use Rattle.sc_world.specs.Eval as spec;
ghost use Rattle.sc_world.specs.View.{exp};
ghost use Rattle.layout_base.specs.Seen as laid;
ghost use Rattle.run_world.specs.Seen as seen;
ghost use Rattle.run_values.specs.Seen.{want_of};
ghost use Rattle.run_exprs.specs.Room.{room};
ghost use Rattle.run_paths.specs.Seen.{FitsAll};
ghost use Rattle.run_acts.specs.Reads.{reads_of};
ghost use Rattle.run_acts.specs.Room.{fits_all_prop};

use layout_base::{Ground, Occurrence, Places};
use run_exprs::{Calls, Room, eval};
use run_known::{act, most_items};
use run_paths::Buffer;
use run_values::Want;
use run_world::{Ended, Here, Value, World};
use sc_base::{OutOfMemory, Pos};
use sc_gather::Effect;
use sc_tree::ctype::CType;
use sc_typed::TExpr;
use std::alloc::Global;

/// The calls of the runs of a function: what they read, and room for what a known call finds.
#[derive(Drop)]
pub struct Acts<'p, 'm, 'f> {
    pub given: Ground<'p, 'm, 'f>,
    pub places: &'f Places<'p>,
    /// The bits that choose the run.
    pub choice: &'f [bool],
    buffer: Buffer<'p>,
    ghost few: { length places.now.locations.items < 2 ^ 32 },
    ghost fits: { FitsAll (laid.ground_of given).source buffer.most } by { fits_all_prop (laid.ground_of given).source buffer.most },
}

impl<'p, 'm, 'f> Acts<'p, 'm, 'f> {
    /// The calls of runs that read what stands here. No memory has room for 2^32 locations.
    #[tactic(auto, unfolding(run_world::specs::Seen::env))]
    pub fn reserve(alloc: Global, here: &Here<'p, 'm, 'f>) -> Result<Acts<'p, 'm, 'f>, OutOfMemory>
        ensures given { IfOk result (λ a. a.given ≡ here.now.ground) }
        ensures places { IfOk result (λ a. a.places.now ≡ here.now.places.now) }
        ensures choice { IfOk result (λ a. a.choice.now ≡ here.now.choice.now) }
    {
        if here.places.locations.len() > u32::MAX as usize {
            return Err(OutOfMemory);
        }
        let buffer = Buffer::reserve(alloc, most_items(here))?;
        Ok(Acts {
            given: here.ground,
            places: here.places,
            choice: here.choice,
            buffer,
        })
    }

    /// Evaluates an expression in a turn of the loops round it, as `run_exprs` does, with these calls.
    #[tactic(auto, unfolding(run_world::specs::Seen::env))]
    pub fn eval(
        &mut self,
        turn: u32,
        world: &mut World,
        kept: &mut Room,
        e: &TExpr,
        want: Want,
    ) -> Result<Value, Ended>
        requires cells { length (laid.layout_of self.old.places.now).locations ≤ vec_capacity kept.old.cells }
        requires events { length world.old.trace.items + room (exp (laid.ground_of self.old.given).source.structs e.now) ≤ vec_capacity world.old.trace }
        requires arguments { length kept.old.arguments.items + room (exp (laid.ground_of self.old.given).source.structs e.now) ≤ vec_capacity kept.old.arguments }
        ensures evaluated { seen.Does seen.cell (spec.eval (exp (laid.ground_of self.old.given).source.structs e.now) (want_of want)
            (reads_of self.old.given self.old.places self.old.choice.now turn) (seen.world world.old)) result (seen.world world.new) }
        ensures arguments { OnOk result (kept.new.arguments.items ≡ kept.old.arguments.items) }
    {
        let here = Here {
            ground: self.given,
            places: self.places,
            choice: self.choice,
            turn,
        };
        eval(&here, world, kept, self, e, want)
    }
}

impl Calls for Acts<'_, '_, '_> {
    ghost reads = { λ a turn. reads_of a.given a.places a.choice.now turn };

    #[tactic(auto, unfolding(run_world::specs::Seen::env))]
    fn act(
        &mut self,
        turn: u32,
        world: &mut World,
        pos: Pos,
        t: &CType,
        occurrence: Occurrence,
        arguments: &[Value],
        effect: Effect,
    ) -> Result<Value, Ended> {
        let here = Here {
            ground: self.given,
            places: self.places,
            choice: self.choice,
            turn,
        };
        act(
            &here,
            world,
            &mut self.buffer,
            pos,
            t,
            occurrence,
            arguments,
            effect,
        )
    }
}
